//! The models.

/// A ring, in which a value goes from one component to the next without end. The others can only
/// wait, so if each process has a worker of its own, each packet has to wake one. If a link has
/// room for one packet, a null message before the value has to make room for it.
pub const RING: &str = "
atomic First {
    in x; out y; phases rest, carry; start carry; hold rest: forever; hold carry: 1;
    external rest { goto carry; } output carry { send y 1; } internal carry { goto rest; }
}
atomic Relay {
    in x; out y; phases rest, carry; start rest; hold rest: forever; hold carry: 1;
    external rest { goto carry; } output carry { send y 1; } internal carry { goto rest; }
}
coupled Top {
    part a: First; part b: Relay; part c: Relay;
    link a.y -> b.x; link b.y -> c.x; link c.y -> a.x;
}
root Top;
";

/// Sixteen clocks, and fifteen times as many components that do nothing. Of sixteen processes the
/// first one has all clocks, so that some hundred of its ticks are as much as may wait for the
/// writer.
pub const CLOCKS: &str = "
atomic Clock { phases go; start go; hold go: 1; }
atomic Idle { phases rest; start rest; hold rest: forever; }
coupled FourClocks { part a: Clock; part b: Clock; part c: Clock; part d: Clock; }
coupled Clocks { part a: FourClocks; part b: FourClocks; part c: FourClocks; part d: FourClocks; }
coupled Three { part a: Idle; part b: Idle; part c: Idle; }
coupled Fifteen { part a: Three; part b: Three; part c: Three; part d: Three; part e: Three; }
coupled Sixty { part a: Fifteen; part b: Fifteen; part c: Fifteen; part d: Fifteen; }
coupled Top { part clocks: Clocks; part a: Sixty; part b: Sixty; part c: Sixty; part d: Sixty; }
root Top;
";

/// A clock that is linked to another one, which gets only null messages from it.
pub const AHEAD: &str = "
atomic First {
    out y; var n: 0..1 = 0; phases go; start go; hold go: 1;
    output go { if n = 1 { send y n; } }
}
atomic Second {
    in x; var n: 0..1 = 0; phases go; start go; hold go: 1;
    external go { n := 0; }
}
coupled Top { part a: First; part b: Second; link a.y -> b.x; }
root Top;
";
