// What was tried, and what came of it.
use bus::BusFault;
use group::fault::GroupFault;
use std::fmt;

#[derive(Clone, Copy, PartialEq, Eq, Debug, Default)]
pub struct Tally {
    trials: u64,
    accepted: u64,
    lost: u64,
    failed: u64,
    right: u64,
    wrong: u64,
}

impl Tally {
    pub(crate) fn begin(&mut self) {
        self.trials = self.trials.saturating_add(1);
    }

    // Counts an answer: accepted, lost, failed at its drive, or anything else, which would be wrong.
    pub(crate) fn count(&mut self, answer: Result<(), GroupFault>) {
        let count = match answer {
            Ok(()) => &mut self.accepted,
            Err(GroupFault::Lost { .. }) => &mut self.lost,
            Err(
                GroupFault::Failed {
                    fault: BusFault::Broken(_),
                    ..
                },
            ) => &mut self.failed,
            Err(_) => &mut self.wrong,
        };
        *count = count.saturating_add(1);
    }

    pub(crate) fn compare(&mut self, same: bool) {
        let count = if same {
            &mut self.right
        } else {
            &mut self.wrong
        };
        *count = count.saturating_add(1);
    }
}

impl fmt::Display for Tally {
    fn fmt<W: fmt::Write>(&self, f: &mut fmt::Formatter<W>) -> fmt::Result {
        write!(
            f,
            "{} trials, {} calls accepted, {} lost, {} failed; {} right, {} wrong",
            self.trials, self.accepted, self.lost, self.failed, self.right, self.wrong
        )
    }
}
