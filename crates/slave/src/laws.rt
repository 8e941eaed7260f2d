//! What follows from the definitions.
ghost use Rattle.slave.specs.Laws.{NothingOutsideARun, OneSlaveOneStory, SessionOfLog};
ghost use Rattle.slave.specs.Turns.{FairShares};

/// A sample that is laid out is of the newest measurement, and its DAQ list runs: so it stands
/// behind the reply to the start of the list, and before that to its stop.
pub fn nothing_outside_a_run()
    ensures { NothingOutsideARun }
{}

/// The law of a session: what a slave's log says of the bytes that were sent. They split into
/// frames whose counters rise by one. What is laid out and what is sent stand in the order of the
/// acts; each packet that was laid out was sent or thrown away, or waits, once; and as long as
/// nothing was thrown away, what was sent are the first of what was laid out. The replies that were
/// laid out are those to the packets heard, in order and each once; and once the parts came back of
/// which samples were sent, the packets that begin as replies do are the replies that were sent.
/// Samples stand only within their measurement and where their DAQ list runs; a sample counts as
/// written as long as its last packet is not thrown away; and what came back of each event channel
/// tells which samples they are, which of them are marked, and how many were due, written, dropped
/// and left.
pub fn session()
    ensures { SessionOfLog }
{}

/// Two logs after which one slave stands tell one story: the same bytes were sent and wait, the
/// sums over what came back agree modulo 2^64, and the same parts of measurements are still out.
pub fn one_slave_one_story()
    ensures { OneSlaveOneStory }
{}

/// Over as many calls of `take` as one likes, each of which begins at the ring that the one before
/// it named, no ring gives more than one item more than a ring of which each call leaves some that
/// was known before it: two such rings share alike what is taken. None of the calls spends the
/// slave.
pub fn fair_shares()
    ensures { FairShares }
{}
