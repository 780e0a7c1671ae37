//! Model texts: those of the worked rows, and the atomic models of the examples.

/// The texts. Each is taken.
pub fn model_texts() -> &'static [&'static str] {
    &[
        CLOCK, LAMP, DIVISION, EFFECTS, CELL, IDLE, KEEP, PACK, BENCH, COUNTER, QUEUE, ROUTER,
        TANK, PUMP, STORE, NESTED, NODE, LINE, BELT,
    ]
}

const CLOCK: &str =
    "atomic Tick { out beat; var n: 0..3 = 0; phases run, stop; start run; hold run: 5;
    hold stop: forever; output run { send beat n; } internal run { if n = 3 { goto stop; } else {
    n := n + 1; } } }
atomic Spin { phases go; start go; hold go: 0; }
coupled Top { part t: Tick; part s: Spin; }
root Top;
";

const LAMP: &str =
    "atomic Lamp { out wear; flag lit = true; var hours: 0..1000 = 0; phases on, off; start on;
    hold on: 3; hold off: 2; output on { if lit and not (hours < 3) { send wear hours; } }
    internal on { hours := hours + 3; lit := false; goto off; } internal off { lit := true; goto on;
    } }
coupled Top { part l: Lamp; }
root Top;
";

const DIVISION: &str =
    "atomic Div { out y; var v: 0..9 = 0; phases w; start w; hold w: 5; output w { send y 1 / v; } }
atomic Full { out y; var v: 0..1 = 1; phases w; start w; hold w: 2; output w { send y v; }
    internal w { v := v + 1; } }
coupled Top { part c: Div; part f: Full; }
root Top;
";

const EFFECTS: &str =
    "atomic Steps { out y; out z; var a: -5..90 = -3; var b: 0..9 = 0; phases p, q, r; start p;
    hold p: 1; hold q: a; hold r: forever; output p { send z a / 2; send y a % 2; send y a;
    send y -a; } output q { send y 7; } internal p { a := a + 5; b := a * 2; goto r; goto q; }
    internal q { goto r; } }
coupled Top { part s: Steps; }
root Top;
";

const CELL: &str =
    "atomic Cell { in x; out y; var v: 0..100 = 0; phases w; start w; hold w: 5; output w {
    send y v; } internal w { v := v + 1; } external w { v := v + sum(x); } }
coupled Top { part c: Cell; }
root Top;
";

const IDLE: &str =
    "atomic Idle { in x; out y; phases z, g; start z; hold z: forever; hold g: 0; external z {
    goto g; } output g { send y 1; } internal g { goto z; } }
atomic Relay { in x; out y; var v: 0..99 = 0; phases z, g; start z; hold z: forever; hold g: 2;
    external z { v := sum(x); goto g; } output g { send y v; } internal g { goto z; } }
coupled Top { part a: Idle; part r: Relay; }
root Top;
";

const KEEP: &str =
    "atomic Keep { in x; bag b 2; phases w; start w; hold w: forever; external w { for v in x {
    add v to b; } } }
coupled Top { part k: Keep; }
root Top;
";

const PACK: &str =
    "atomic Pack { out y; bag b 3; flag f = false; phases w; start w; hold w: size(b) + 1;
    output w { for v in b { send y v; } } internal w { add 3 - size(b) to b; f := not f; } }
coupled Top { part p: Pack; }
root Top;
";

const BENCH: &str =
    "atomic Bench { out rod; bag store 3; var length: 1..100 = 1; phases cut, ship; start cut;
    hold cut: 2; hold ship: 1; internal cut { add length to store; length := length * 7 % 10 + 1;
    if size(store) = 3 { goto ship; } } output ship { for one in store { send rod one; } }
    internal ship { for one in store { drop one from store; } goto cut; } }
coupled Top { part b: Bench; }
root Top;
";

const COUNTER: &str =
    "atomic Invert { in a; out y; flag value = false; phases rest, change; start rest;
    hold rest: forever; hold change: 1; external rest { value := least(a) = 0; goto change; }
    external change { value := least(a) = 0; goto change; } output change { if value { send y 1; }
    else { send y 0; } } internal change { goto rest; } }
atomic Latch { in d; in clock; out q; flag input = true; flag high = false; flag bit = false;
    phases rest, change; start rest; hold rest: forever; hold change: 1; external rest {
    for v in d { input := v = 1; } for v in clock { if high and v = 0 { bit := input; goto change; }
    high := v = 1; } } external change { for v in d { input := v = 1; } for v in clock {
    high := v = 1; } } output change { if bit { send q 1; } else { send q 0; } } internal change {
    goto rest; } }
coupled Top { part i: Invert; part l: Latch; }
root Top;
";

const QUEUE: &str =
    "atomic Server { in job; out done; out turned_away; bag room 3; var work: 1..100 = 1;
    var lost: 0..100 = 0; phases idle, busy; start idle; hold idle: forever; hold busy: work;
    external idle { for one in job { if size(room) < 3 { add one to room; } else { lost := lost + 1;
    } } work := least(room); drop work from room; goto busy; } external busy { for one in job {
    if size(room) < 3 { add one to room; } else { lost := lost + 1; } } } output busy {
    send done work; if lost > 0 { send turned_away lost; } } internal busy { lost := 0;
    if size(room) > 0 { work := least(room); drop work from room; } else { goto idle; } } }
coupled Top { part s: Server; }
root Top;
";

const ROUTER: &str =
    "atomic Switch { in packet; out here; out up; out down; bag held 100; phases idle, route;
    start idle; hold idle: forever; hold route: 0; external idle { for p in packet { add p to held;
    } goto route; } external route { for p in packet { add p to held; } } output route {
    for p in held { if p = 1 { send here p; } else { if p > 1 { send up p; } else { send down p; } }
    } } internal route { for p in held { drop p from held; } goto idle; } }
atomic Wire { in enter; out leave; bag waiting 100; var packet: 0..2 = 0; phases free, busy;
    start free; hold free: forever; hold busy: 3; external free { for p in enter { add p to waiting;
    } packet := least(waiting); drop packet from waiting; goto busy; } external busy {
    for p in enter { add p to waiting; } } output busy { send leave packet; } internal busy {
    if size(waiting) > 0 { packet := least(waiting); drop packet from waiting; } else { goto free; }
    } }
coupled Top { part s: Switch; part w: Wire; }
root Top;
";

const TANK: &str = "atomic Tank { in pumped; in drawn; out low; out high; var level: 0..200 = 40;
    var inflow: 0..50 = 0; var outflow: 0..50 = 0; phases flow; start flow; hold flow: 10;
    output flow { if level < 30 { send low level; } if level > 80 { send high level; } }
    internal flow { if level + inflow > outflow { level := level + inflow - outflow; } else {
    level := 0; } } external flow { for rate in pumped { inflow := rate; } for rate in drawn {
    outflow := rate; } } confluent flow { if level + inflow > outflow {
    level := level + inflow - outflow; } else { level := 0; } for rate in pumped { inflow := rate; }
    for rate in drawn { outflow := rate; } } }
coupled Top { part t: Tank; }
root Top;
";

const PUMP: &str =
    "atomic Pump { in on; in off; out rate; phases still, starting, stopping, running; start still;
    hold still: forever; hold starting: 2; hold running: forever; hold stopping: 0; external still {
    if size(on) > 0 { goto starting; } } external starting { if size(off) > 0 { goto still; } }
    external running { if size(off) > 0 { goto stopping; } } output starting { send rate 25; }
    output stopping { send rate 0; } internal starting { goto running; } internal stopping {
    goto still; } }
coupled Top { part p: Pump; }
root Top;
";

const STORE: &str =
    "atomic Offset { in box; out next; var weight: 0..100 = 0; phases empty, moving; start empty;
    hold empty: forever; hold moving: 4; external empty { weight := most(box); goto moving; }
    external moving { } output moving { send next weight; } internal moving { goto empty; }
    confluent moving { weight := most(box); } }
atomic Store { in box; out load; bag boxes 20; phases filling, loading; start filling;
    hold filling: forever; hold loading: 2; external filling { for b in box { add b to boxes; }
    if sum(boxes) >= 50 { goto loading; } } external loading { for b in box { add b to boxes; } }
    output loading { for b in boxes { send load b; } } internal loading { for b in boxes {
    drop b from boxes; } goto filling; } }
coupled Top { part p: Offset; part s: Store; }
root Top;
";

/// Three loops in one another, and what joins conditions.
const NESTED: &str =
    "atomic Work { in x; out y; bag b 24; var s: 0..2147483647 = 1; var a: 0..1000000000000 = 0;
    phases fill, work; start fill; hold fill: 1; hold work: 1; internal fill {
    s := (s * 1103515245 + 12345) % 2147483648; add s / 65536 % 1000 to b; if size(b) = 24 {
    goto work; } } internal work { a := 0; for u in b { for v in b {
    if u < v and (u + v) % 7 != 3 or u * v % 11 = 5 { for w in b { a := a + (u * v + w) % 13; } }
    else { a := a + 1; } } } drop least(b) from b; } external work { a := elapsed + times(3, x); }
    output work { send y most(b); } }
coupled Top { part w: Work; }
root Top;
";

/// Choices in the blocks of a choice.
const NODE: &str =
    "atomic Node { in x; out a; out b; out c; out d; var s: 0..2147483647 = 7919; phases w; start w;
    hold w: 1 + s / 256 % 2000; output w { if s / 65536 % 4 < 2 { if s / 65536 % 4 < 1 {
    send a s % 1000; } else { send b s % 1000; } } else { if s / 65536 % 4 < 3 { send c s % 1000; }
    else { send d s % 1000; } } } internal w { s := (s * 1103515245 + 12345) % 2147483648; }
    external w { s := (s * 1103515245 + 12345 + sum(x)) % 2147483648; goto w; } }
coupled Top { part n: Node; }
root Top;
";

/// A server with a line in front of it.
const LINE: &str = "version 2;
atomic Line { in x; out y; queue q 2; phases idle, busy; start idle; hold idle: forever; hold busy: 3;
    output busy { send y front(q); } internal busy { pop q; if size(q) = 0 { goto idle; } }
    external idle { for v in x { push v to q; } goto busy; }
    external busy { for v in x { push v to q; } } }
coupled Top { in x; out o; part s: Line; link self.x -> s.x; link s.y -> self.o; }
root Top;
";

/// A queue that is changed while a loop walks it, and a bag beside it.
const BELT: &str = "version 2;
atomic Belt { in x; out y; queue line 6; bag left 8; var last: -50..100 = 0; phases load, move;
    start load; hold load: forever; hold move: front(line) % 4 + 4; external load { for v in x {
    push v to line; } if size(line) > 0 { goto move; } } external move { for v in line {
    if v > 2 { push v - 1 to line; } } pop line; } output move { send y front(line);
    for v in line { send y v * 2; } } internal move { last := front(line); pop line; add last to left;
    if size(line) = 0 { goto load; } } }
coupled Top { in x; part b: Belt; link self.x -> b.x; }
root Top;
";
