ghost use Rattle.bus.specs.Laws.{WorseRefl, WorseTrans, WorseSound, ReadsWorsen, RefusedWritesWorsen, WritesElsewhere, WriteThenRead};

// Of every bus: what may happen between two requests, and what a request leaves alone.
pub fn laws_stand()
    ensures nothing { WorseRefl }
    ensures twice { WorseTrans }
    ensures sound { WorseSound }
    ensures reads { ReadsWorsen }
    ensures refused { RefusedWritesWorsen }
    ensures elsewhere { WritesElsewhere }
    ensures stored { WriteThenRead }
{}
