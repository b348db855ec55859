use crate::geometry::Geometry;
use crate::method::Method;
use crate::parity::Parity;
use crate::row::{encode_row, recover_row};
use std::test::Fail;

#[test]
fn the_last_block_of_the_example(rt: HostRuntime) -> Result<(), Fail> {
    let Ok(g) = Geometry::new::<Parity>(3, 2, 12) else {
        return Err(Fail::new("refused"));
    };
    let Ok(at) = g.locate::<Parity>(23) else {
        return Err(Fail::new("outside"));
    };
    assert_eq!(rt; at.member, 1);
    assert_eq!(rt; at.row, 11);
    Ok(())
}

#[test]
fn a_missing_block_comes_back(rt: HostRuntime) {
    let mut row = [[5; 512], [9; 512], [0; 512]];
    assert_eq!(rt; encode_row::<Parity>(2, &mut row), Ok(()));
    row[0] = [0; 512];
    assert_eq!(rt;
        recover_row::<Parity>(2, &mut row, &[true, false, false]),
        Ok(())
    );
    assert_eq!(rt; row[0][511], 5);
    assert_eq!(rt; row[2][511], 12);
}
