//! Random requests: an array over a bank in memory answers as the plain machine.

ghost use Rattle.std.specs.Prelude.{◌≡◌, ◌^◌, ◌<◌, IfOk};
ghost use Rattle.trap_array.specs.Calls.{IsReady};
ghost use Rattle.trap_model.specs.ArrayStep.{IsSized};

use crate::{Array, Denied, create};
use std::alloc::{AllocError as OutOfMemory, Global};
use std::process::Abort;
use std::test::Fail;
use trap_bank::{Bank, MemoryBank};
use trap_model::{Block, Geometry, Plain, Refusal, Reply, Request};

/// A linear congruential generator.
#[derive(Drop)]
struct Dice {
    state: u64,
    ghost below: { state < 2 ^ 31 },
}

impl Dice {
    /// A number below this one.
    fn roll(&mut self, sides: u64) -> u64
        requires { 0 < sides }
        ensures { result < sides }
    {
        self.state = (self.state * 1_103_515_245 + 12_345) % (1 << 31);
        self.state / 65_536 % sides
    }
}

/// Three members of four rows, whose ring is full of some forty records.
fn small_ring() -> Geometry
    ensures slots { result.slots ≡ 1 }
    ensures block { result.block ≡ 16 }
{
    Geometry {
        id: 7,
        members: 3,
        chunk: 1,
        block: 16,
        rows: 4,
        slots: 1,
        gap: 2,
        entries: 64,
        ring: 2048,
    }
}

/// One byte again and again, and perhaps another one among them.
fn contents(dice: &mut Dice) -> [u8; 16] {
    let mut bytes = [dice.roll(4) as u8; 16];
    bytes[dice.roll(16) as usize] = dice.roll(4) as u8;
    bytes
}

/// A request. Time goes on by one in four turns.
fn any_request(alloc: Global, dice: &mut Dice, turn: u64) -> Result<Request, OutOfMemory>
    requires { turn < 2 ^ 32 }
    ensures { IfOk result (λ request. (g : Geometry) → g.block ≡ 16 → IsSized g request) }
{
    let (time, block) = (turn / 4, dice.roll(9));
    Ok(match dice.roll(9) {
        0..=2 => Request::Write {
            time: time + dice.roll(4),
            block,
            bytes: Block::new(alloc, &contents(dice))?,
        },
        3 => Request::Read { block },
        4 | 5 => Request::At {
            seq: dice.roll(64),
            block,
        },
        6 | 7 => Request::By {
            time: dice.roll(time + 8),
            block,
        },
        _ => Request::Info,
    })
}

/// The refusal. A fault has no reply.
fn refused(denied: Denied) -> Reply {
    match denied {
        Denied::Refused(why) => Reply::No(why),
        _ => Reply::Silent,
    }
}

/// The array's reply to a write.
fn write<B: Bank>(
    rt: &impl Abort,
    array: &mut Array,
    bank: &mut B,
    time: u64,
    block: u64,
    bytes: &[u8],
) -> Reply
    requires { IsReady array.old (B.view bank.old) }
    ensures { IsReady array.new (B.view bank.new) }
{
    assert!(rt; bytes.len() == usize::from(array.geometry().block));
    match array.write(bank, time, block, bytes) {
        Ok(seq) => Reply::Kept { seq },
        Err(denied) => refused(denied),
    }
}

/// The array's reply to a read.
fn read<B: Bank>(
    rt: &impl Abort,
    alloc: Global,
    array: &mut Array,
    bank: &mut B,
    block: u64,
) -> Result<Reply, OutOfMemory>
    requires { IsReady array.old (B.view bank.old) }
    ensures { IsReady array.new (B.view bank.new) }
{
    let mut into = [0xee; 16];
    assert!(rt; array.geometry().block == 16);
    match array.read(bank, block, &mut into) {
        Ok(()) => {
            let bytes = Block::new(alloc, &into)?;
            Ok(Reply::Is { bytes })
        }
        Err(denied) => Ok(refused(denied)),
    }
}

/// The array's reply to a read by number.
fn read_at<B: Bank>(
    rt: &impl Abort,
    alloc: Global,
    array: &mut Array,
    bank: &mut B,
    seq: u64,
    block: u64,
) -> Result<Reply, OutOfMemory>
    requires { IsReady array.old (B.view bank.old) }
    ensures { IsReady array.new (B.view bank.new) }
{
    let mut into = [0xee; 16];
    assert!(rt; array.geometry().block == 16);
    match array.at_seq(bank, block, seq, &mut into) {
        Ok(()) => {
            let bytes = Block::new(alloc, &into)?;
            Ok(Reply::At { bytes })
        }
        Err(denied) => Ok(refused(denied)),
    }
}

/// The array's reply to a read by time.
fn read_by<B: Bank>(
    rt: &impl Abort,
    alloc: Global,
    array: &mut Array,
    bank: &mut B,
    time: u64,
    block: u64,
) -> Result<Reply, OutOfMemory>
    requires { IsReady array.old (B.view bank.old) }
    ensures { IsReady array.new (B.view bank.new) }
{
    let mut into = [0xee; 16];
    assert!(rt; array.geometry().block == 16);
    match array.at_time(bank, block, time, &mut into) {
        Ok(()) => {
            let bytes = Block::new(alloc, &into)?;
            Ok(Reply::At { bytes })
        }
        Err(denied) => Ok(refused(denied)),
    }
}

/// What the array tells of its history.
fn span(array: &Array) -> Reply {
    let span = array.span();
    Reply::Span {
        first: span.first,
        last: span.last,
        base_time: span.base_time,
        last_time: span.last_time,
    }
}

/// The array's reply.
fn reply_of<B: Bank>(
    rt: &impl Abort,
    alloc: Global,
    array: &mut Array,
    bank: &mut B,
    request: &Request,
) -> Result<Reply, OutOfMemory>
    requires { IsReady array.old (B.view bank.old) }
    ensures { IsReady array.new (B.view bank.new) }
{
    match request {
        Request::Write { time, block, bytes } => {
            Ok(write(rt, array, bank, *time, *block, bytes.as_slice()))
        }
        Request::Read { block } => read(rt, alloc, array, bank, *block),
        Request::At { seq, block } => read_at(rt, alloc, array, bank, *seq, *block),
        Request::By { time, block } => read_by(rt, alloc, array, bank, *time, *block),
        _ => Ok(span(array)),
    }
}

/// Whether two replies are the same.
fn are_same(reply: &Reply, other: &Reply) -> bool {
    match (reply, other) {
        (Reply::Kept { seq }, Reply::Kept { seq: number }) => seq == number,
        (Reply::Is { bytes }, Reply::Is { bytes: others })
        | (Reply::At { bytes }, Reply::At { bytes: others }) => {
            bytes.as_slice() == others.as_slice()
        }
        (
            Reply::Span {
                first,
                last,
                base_time,
                last_time,
            },
            Reply::Span {
                first: a,
                last: b,
                base_time: c,
                last_time: d,
            },
        ) => { first == a && last == b && base_time == c && last_time == d }
        (Reply::No(why), Reply::No(refusal)) => why == refusal,
        _ => false,
    }
}

/// Which refusals came.
#[derive(Debug, Clone, Copy, PartialEq, Eq)]
struct Refusals {
    no_block: bool,
    time_back: bool,
    full: bool,
    ahead: bool,
}

impl Refusals {
    fn note(&mut self, reply: &Reply) {
        match reply {
            Reply::No(Refusal::NoBlock) => self.no_block = true,
            Reply::No(Refusal::TimeBack { .. }) => self.time_back = true,
            Reply::No(Refusal::Full) => self.full = true,
            Reply::No(Refusal::Ahead { .. }) => self.ahead = true,
            _ => {}
        }
    }
}

/// Asks the array, mounted, and the plain machine for the same: fifty requests from this turn on.
fn fifty_alike<B: Bank>(
    rt: &impl Abort,
    alloc: Global,
    bank: &mut B,
    plain: &mut Plain,
    dice: &mut Dice,
    came: &mut Refusals,
    from: u64,
) -> Result<(), Fail>
    requires sized { plain.old.geometry.block ≡ 16 }
    requires from { from < 2 ^ 31 }
    ensures { plain.new.geometry.block ≡ 16 }
{
    let mut array = Array::mount(alloc, bank)?;
    for turn in from..from + 50 {
        let request = any_request(alloc, dice, turn)?;
        let reply = reply_of(rt, alloc, &mut array, bank, &request)?;
        let wanted = plain.step(alloc, &request)?;
        assert!(rt;
            are_same(&reply, &wanted),
            "{request:?}: {reply:?}, not {wanted:?}"
        );
        came.note(&reply);
    }
    Ok(())
}

#[test]
fn an_array_answers_as_the_plain_machine(rt: HostRuntime) -> Result<(), Fail> {
    let mut bank = MemoryBank::new(rt.alloc())?;
    assert_eq!(rt; create(&mut bank, &small_ring()), Ok(()));
    let mut plain = Plain::new(rt.alloc(), small_ring())?;
    let mut dice = Dice { state: 1 };
    let mut came = Refusals {
        no_block: false,
        time_back: false,
        full: false,
        ahead: false,
    };
    for round in 0..6 {
        let from = round * 50;
        fifty_alike(
            &rt,
            rt.alloc(),
            &mut bank,
            &mut plain,
            &mut dice,
            &mut came,
            from,
        )?;
    }
    let each = Refusals {
        no_block: true,
        time_back: true,
        full: true,
        ahead: true,
    };
    assert_eq!(rt; came, each);
    Ok(())
}
