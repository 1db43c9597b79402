//! Commands asked at an address one after the other, by a client and by hand, and a long reply read: `bench/client.py` has their times told.

use anyhow::bail;
use milunovesk::client::Client;
use milunovesk::commands::thread_reference;
use milunovesk::replies::{GenericClass, Reply};
use milunovesk::{
    Answer, Datum, Debugger, IdSizes, Limits, ObjectId, Order, Pipe, Read, ReferenceTypeId, Scalar,
    read, write,
};
use std::alloc::Global;
use std::rt::Clock;
use std::time::Instant;

/// How many bytes are moved at once, more than a command or its reply takes.
const CHUNK: usize = 4_096;

/// The thread whose suspend count is asked.
const THREAD: ObjectId = ObjectId(1);

/// How many classes the long reply lists.
const CLASSES: u64 = 10_000;

/// What is done again and again.
pub trait Work {
    /// Does it once.
    fn once(&mut self) -> anyhow::Result<()>;
}

/// Does work as often as each line of the input says, and prints the seconds that a line took.
pub fn measure<W: Work + Drop>(
    rt: &(impl Print + Input + AllocGlobal + Clock),
    mut work: W,
) -> anyhow::Result<()> {
    measure_all(rt, &mut work)
}

/// The same of work that is lent.
fn measure_all<W: Work>(
    rt: &(impl Print + Input + AllocGlobal + Clock),
    work: &mut W,
) -> anyhow::Result<()> {
    for line in rt.lines(rt.alloc()) {
        let times = line?.parse::<u32>()?;
        let start = Instant::now(rt)?;
        repeat(work, times)?;
        let nanoseconds = start.elapsed(rt)?.as_nanos();
        println!(rt; "{nanoseconds}")?;
    }
    Ok(())
}

/// Does work so many times.
fn repeat<W: Work>(work: &mut W, times: u32) -> anyhow::Result<()> {
    for _ in 0..times {
        work.once()?;
    }
    Ok(())
}

/// The suspend count of a thread, asked by a client.
#[derive(Drop)]
pub struct ByClient<P: Pipe> {
    alloc: Global,
    client: Box<Client<P>>,
}

impl<P: Pipe + Drop> ByClient<P> {
    /// By a client whose session begins.
    pub fn begin(alloc: Global, client: Client<P>) -> anyhow::Result<ByClient<P>> {
        let mut client = Box::new(alloc, client)?;
        client.attach()?;
        Ok(ByClient { alloc, client })
    }
}

impl<P: Pipe + Drop> Work for ByClient<P> {
    fn once(&mut self) -> anyhow::Result<()> {
        match self
            .client
            .ask(thread_reference::suspend_count(self.alloc, THREAD)?)?
        {
            Answer::Data(_) => Ok(()),
            Answer::Error(code) => bail!("error {}", code.0),
        }
    }
}

/// The same, asked by a debugger whose bytes are moved by hand.
#[derive(Drop)]
pub struct ByHand<P: Pipe> {
    alloc: Global,
    debugger: Box<Debugger>,
    pipe: P,
    buffer: [u8; CHUNK],
}

impl<P: Pipe + Drop> ByHand<P> {
    /// Over a pipe where a session begins.
    pub fn begin(alloc: Global, pipe: P) -> anyhow::Result<ByHand<P>> {
        let debugger = Debugger::with_order(alloc, 1, Limits::standard(), Order::Apart)?;
        let mut made = ByHand {
            alloc,
            debugger: Box::new(alloc, debugger)?,
            pipe,
            buffer: [0; CHUNK],
        };
        made.debugger.attach();
        made.pump()?;
        Ok(made)
    }

    /// Moves bytes, until the widths of ids or an answer are told.
    fn pump(&mut self) -> anyhow::Result<()> {
        for _ in 0..u64::MAX {
            let count = self.debugger.take(&mut self.buffer);
            if count > 0 {
                if self.pipe.write(&self.buffer[..count])? != count {
                    bail!("a write took a part");
                }
                self.pipe.flush()?;
            }
            let came = self.pipe.read(&mut self.buffer)?;
            if came == 0 {
                bail!("the target closed the connection");
            }
            self.debugger.feed(&self.buffer[..came]);
            if self.turn()? {
                break;
            }
        }
        Ok(())
    }

    /// Handles what came, and says whether the widths of ids or an answer are told.
    fn turn(&mut self) -> anyhow::Result<bool> {
        for _ in 0..CHUNK {
            match self.debugger.turn(self.alloc)? {
                Read::Nothing => return Ok(false),
                Read::Sizes(_) | Read::Answered(..) => return Ok(true),
                _ => {}
            }
        }
        Ok(false)
    }
}

impl<P: Pipe + Drop> Work for ByHand<P> {
    fn once(&mut self) -> anyhow::Result<()> {
        let command = thread_reference::suspend_count(self.alloc, THREAD)?;
        self.debugger.ask(self.alloc, command)?;
        self.pump()
    }
}

/// The reply to AllClassesWithGeneric of ten thousand classes, read typed, or item by item.
#[derive(Drop)]
pub struct Classes {
    alloc: Global,
    sizes: IdSizes,
    bytes: Vec<u8>,
    is_typed: bool,
}

impl Classes {
    /// The reply, with ids of eight bytes.
    pub fn new(alloc: Global, is_typed: bool) -> anyhow::Result<Classes> {
        let sizes = IdSizes::new(8, 8, 8, 8, 8)?;
        let items = vec![in alloc; Datum::Many(entries(alloc)?)]?;
        let mut bytes = Vec::new(alloc);
        write(Vec::<GenericClass>::layout(), &sizes, &items, &mut bytes)?;
        Ok(Classes {
            alloc,
            sizes,
            bytes,
            is_typed,
        })
    }
}

/// What the reply says of each class.
fn entries(alloc: Global) -> anyhow::Result<Vec<Vec<Scalar>>> {
    let mut entries = Vec::new(alloc);
    for id in 1..=CLASSES {
        entries.push(entry(alloc, id)?)?;
    }
    Ok(entries)
}

/// What it says of the class of this id.
fn entry(alloc: Global, id: u64) -> anyhow::Result<Vec<Scalar>> {
    Ok(vec![in alloc;
        Scalar::Byte(1),
        Scalar::ReferenceTypeId(ReferenceTypeId(id)),
        Scalar::String(format!(in alloc; "Lorg/example/part/Class{id};")?),
        Scalar::String(String::new(alloc)),
        Scalar::Int(7),
    ]?)
}

impl Work for Classes {
    fn once(&mut self) -> anyhow::Result<()> {
        if self.is_typed {
            Vec::<GenericClass>::read(self.alloc, &self.sizes, &self.bytes)?;
        } else {
            read(
                self.alloc,
                Vec::<GenericClass>::layout(),
                &self.sizes,
                &self.bytes,
            )?;
        }
        Ok(())
    }
}
