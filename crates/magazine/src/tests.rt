//! The worked row of a worker's two magazines, and a long run of them beside two plain lists.
use crate::{Cpu, Magazine, ROUNDS};
use kmem_buf::{Buf, Cell, Kind};
use std::alloc::{AllocError, Global};
use std::mem::swap;
use std::test::Fail;
use std::thread::{Threads, join};

// Its objects are constructed at 0.
struct Zeros;

impl Kind for Zeros {
    type Object = u32;

    ghost use Rattle.std.specs.Prelude.{◌≡◌, true};

    ghost constructed = { λ n. n ≡ 0 };

    ghost never_refuses = { true };

    fn construct(&mut self) -> Result<u32, AllocError> {
        Ok(0)
    }

    fn destruct(&mut self, _object: u32) {}
}

fn buffer(alloc: Global, number: u32) -> Result<Buf<Zeros>, AllocError> {
    let mut cell = Cell::create(alloc, number)?;
    Ok(cell.take(0))
}

fn number_of(buf: Option<Buf<Zeros>>) -> Option<u32> {
    buf.map(|b| b.number())
}

#[test]
fn sixteen_puts_and_no_more(rt: HostRuntime) -> Result<(), Fail> {
    let mut cpu = Cpu::<Zeros>::create(rt.alloc())?;
    assert_eq!(rt; number_of(cpu.take()), None);
    for number in 1..=16 {
        assert!(rt; cpu.put(buffer(rt.alloc(), number)?).is_ok());
    }
    let back = cpu.put(buffer(rt.alloc(), 17)?).err();
    assert_eq!(rt;
        (number_of(back), number_of(cpu.take())),
        (Some(17), Some(16))
    );
    Ok(())
}

#[test]
fn magazines_come_in_and_go_out(rt: HostRuntime) -> Result<(), Fail> {
    let mut full = Magazine::<Zeros>::create(rt.alloc())?;
    for number in 0..ROUNDS {
        if full.len() < ROUNDS {
            full.push(buffer(rt.alloc(), number)?);
        }
    }
    let mut cpu = Cpu::<Zeros>::create(rt.alloc())?;
    if full.len() == ROUNDS {
        let empty = cpu.refill(full);
        assert_eq!(rt; empty.len(), 0);
    }
    assert_eq!(rt; number_of(cpu.take()), Some(7));
    Ok(())
}

#[test]
fn relieve_is_undone(rt: HostRuntime) -> Result<(), Fail> {
    let mut cpu = Cpu::<Zeros>::create(rt.alloc())?;
    for number in 1..=16 {
        assert!(rt; cpu.put(buffer(rt.alloc(), number)?).is_ok());
    }
    let Err(spare) = cpu.put(buffer(rt.alloc(), 17)?) else {
        panic!(rt; "a seventeenth went in");
    };
    let full = cpu.relieve(Magazine::<Zeros>::create(rt.alloc())?);
    let empty = cpu.put_back(full);
    assert_eq!(rt; (empty.len(), spare.number()), (0, 17));
    for number in 0..16 {
        assert_eq!(rt; number_of(cpu.take()), Some(16 - number));
    }
    Ok(())
}

// A worker's magazines go to another thread, which takes from them, and come back.
fn taken_elsewhere<R: Threads>(
    rt: &R,
    mut cpu: Cpu<Zeros>,
    mut magazine: Magazine<Zeros>,
) -> (Cpu<Zeros>, Magazine<Zeros>, Option<u32>, Option<u32>) {
    let (back, ()) = join(
        rt,
        move || {
            let first = number_of(cpu.take());
            let second = number_of(magazine.pop());
            (cpu, magazine, first, second)
        },
        || (),
    );
    back
}

#[test]
fn magazines_cross_threads(rt: HostRuntime) -> Result<(), Fail> {
    let mut cpu = Cpu::<Zeros>::create(rt.alloc())?;
    assert!(rt; cpu.put(buffer(rt.alloc(), 5)?).is_ok());
    let mut magazine = Magazine::<Zeros>::create(rt.alloc())?;
    magazine.push(buffer(rt.alloc(), 6)?);
    let (mut cpu, magazine, first, second) = taken_elsewhere(&rt, cpu, magazine);
    assert_eq!(rt; (first, second), (Some(5), Some(6)));
    assert_eq!(rt; (number_of(cpu.take()), magazine.len()), (None, 0));
    Ok(())
}

// The rule of the two magazines, over numbers.
#[derive(Drop)]
struct Plain {
    loaded: Vec<u32>,
    previous: Vec<u32>,
}

impl Plain {
    fn put(&mut self, number: u32) -> Result<bool, AllocError> {
        if self.loaded.len() == 8 {
            if self.previous.len() == 8 {
                return Ok(false);
            }
            swap(&mut self.loaded, &mut self.previous);
        }
        self.loaded.push(number)?;
        Ok(true)
    }

    fn take(&mut self) -> Option<u32> {
        if self.loaded.len() == 0 && self.previous.len() == 8 {
            swap(&mut self.loaded, &mut self.previous);
        }
        self.loaded.pop()
    }
}

// Puts a spare buffer into both, and tells whether they agreed.
fn put_agrees(
    cpu: &mut Cpu<Zeros>,
    plain: &mut Plain,
    spare: &mut Vec<Buf<Zeros>>,
) -> Result<bool, AllocError> {
    let Some(buf) = spare.pop() else {
        return Ok(false);
    };
    let number = buf.number();
    let went_in = plain.put(number)?;
    match cpu.put(buf) {
        Ok(()) => Ok(went_in),
        Err(back) => {
            let is_same = back.number() == number;
            spare.push(back)?;
            Ok(is_same && !went_in)
        }
    }
}

// Takes from both, and tells whether they agreed.
fn take_agrees(
    cpu: &mut Cpu<Zeros>,
    plain: &mut Plain,
    spare: &mut Vec<Buf<Zeros>>,
) -> Result<bool, AllocError> {
    let wanted = plain.take();
    match cpu.take() {
        Some(buf) => {
            let number = buf.number();
            spare.push(buf)?;
            Ok(wanted == Some(number))
        }
        None => Ok(wanted.is_none()),
    }
}

#[test]
fn ten_thousand_puts_and_takes(rt: HostRuntime) -> Result<(), Fail> {
    let mut spare = Vec::new(rt.alloc());
    for number in 0..17 {
        spare.push(buffer(rt.alloc(), number)?)?;
    }
    let mut cpu = Cpu::<Zeros>::create(rt.alloc())?;
    let mut plain = Plain {
        loaded: Vec::new(rt.alloc()),
        previous: Vec::new(rt.alloc()),
    };
    let mut draw: u32 = 1;
    for _ in 0..10_000 {
        draw = draw.wrapping_mul(1_103_515_245).wrapping_add(12_345);
        let agrees = if draw & 65_536 == 0 {
            put_agrees(&mut cpu, &mut plain, &mut spare)?
        } else {
            take_agrees(&mut cpu, &mut plain, &mut spare)?
        };
        assert!(rt; agrees);
    }
    Ok(())
}
