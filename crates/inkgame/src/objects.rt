//! The game's objects: what its story calls, and who watches its gold.

ghost use Rattle.std.specs.Prelude.{Some};

use ink_player::{Given, HostFault, Observer, PureFn, Recorder, TurnFn, Value, Watcher};
use std::alloc::{AllocError, Global};

/// The inn, whose name is asked for. To ask changes nothing: it is a pure function.
#[derive(Drop)]
pub(crate) struct Inn {
    name: Given,
    alloc: Global,
}

impl Inn {
    pub(crate) fn new(alloc: Global, name: &str) -> Result<Inn, AllocError> {
        let name = Given::text(alloc, name)?;
        Ok(Inn { name, alloc })
    }
}

impl PureFn for Inn {
    ghost meaning = { λ inn arguments. Some inn.name };

    fn ask(&self, _arguments: &[Value]) -> Result<Given, HostFault> {
        Ok(self.name.clone_in(self.alloc)?)
    }
}

/// A die, which goes on from throw to throw: it is a turn function, and is called once for each throw. It refuses another die
/// than one of six sides.
#[derive(Drop)]
pub(crate) struct Die {
    seed: u32,
    noted: Recorder,
}

impl Die {
    pub(crate) fn new(alloc: Global, seed: u32) -> Die {
        Die {
            seed,
            noted: Recorder::new(alloc),
        }
    }

    /// How often it was called.
    pub(crate) fn throws(&self) -> usize {
        self.noted.calls().len()
    }
}

impl TurnFn for Die {
    ghost log = { λ die. die.noted.log };

    ghost refusals = { λ die. die.noted.refusals };

    fn call(&mut self, stamp: u64, arguments: &[Value]) -> Result<Given, HostFault> {
        let call = self.noted.open(stamp, arguments)?;
        match arguments.first() {
            Some(Value::Int(6)) => {
                self.seed = next_seed(self.seed);
                self.noted.answer(call, Given::Int(face(self.seed)))
            }
            _ => Err(self.noted.refuse(call)),
        }
    }
}

/// What the die goes on with after a throw.
fn next_seed(seed: u32) -> u32 {
    seed.wrapping_mul(1_103_515_245).wrapping_add(12_345)
}

/// The throw, from 1 to 6.
fn face(seed: u32) -> i32 {
    let face = (seed / 65_536 % 6) as u8;
    i32::from(face) + 1
}

/// A purse, which notes how much gold is in it whenever that has changed, and shows it.
#[derive(Drop)]
pub(crate) struct Purse<R> {
    rt: R,
    noted: Observer,
}

impl<R: Print> Purse<R> {
    pub(crate) fn new(alloc: Global, rt: R) -> Purse<R> {
        Purse {
            rt,
            noted: Observer::new(alloc),
        }
    }

    /// How often the gold has changed.
    pub(crate) fn changes(&self) -> usize {
        self.noted.seen().len()
    }
}

impl<R: Print> Watcher for Purse<R> {
    ghost state = { λ purse. purse.noted };

    fn begin(&mut self) {
        self.noted.begin()
    }

    fn changed(&mut self, stamp: u64, name: &str, value: &Value) -> Result<(), AllocError> {
        self.noted.changed(stamp, name, value)?;
        if let Value::Int(gold) = value {
            let _ = println!(&self.rt; "[{name}: {gold}]");
        }
        Ok(())
    }

    fn end(&mut self) {
        self.noted.end()
    }
}
