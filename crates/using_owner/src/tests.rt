//! Stores of three slabs with three words each, of which one is left on each slab, and all stand alike.
ghost use Rattle.std.specs.Prelude.{◌≢◌};
ghost use Rattle.kmem_buf.specs.declared.owner.Stand.TheVariants.{Unknown};

use crate::Store;
use kmem_buf::Stand;
use object_cache::{SlabLine, Tally};
use std::test::Fail;

// Takes the word of a number away, if one stands there.
fn take(store: &mut Store, number: u32) {
    if store.has(number) {
        let _word = store.take(number);
    }
}

// Puts nine words that stand so, and takes six of them away again: one stays on each slab, the first there.
fn put_and_take(store: &mut Store, stand: Stand)
    requires { stand ≢ Unknown }
{
    for word in 0..9 {
        let _number = store.put(word, stand);
    }
    for number in 0..9 {
        if number % 3 > 0 {
            take(store, number);
        }
    }
}

// How the moves of a settle end, and the line of each slab.
fn settled(store: &mut Store, stand: Stand) -> (Tally, [Option<SlabLine>; 3])
    requires { stand ≢ Unknown }
{
    put_and_take(store, stand);
    let tally = store.settle();
    (tally, [line(store, 0), line(store, 1), line(store, 2)])
}

fn line(store: &Store, slab: u32) -> Option<SlabLine> {
    let cache = store.cache();
    if slab < cache.slabs() {
        cache.line(slab)
    } else {
        None
    }
}

fn word(store: &Store, number: u32) -> Option<u64> {
    if store.has(number) {
        Some(store.shelf().word(number))
    } else {
        None
    }
}

fn alone(index: Option<u32>) -> Option<SlabLine> {
    Some(SlabLine {
        used: 1,
        stuck: index,
    })
}

// Five scans ask 2, 2, 3, 2 and 3 words to move. Where one was put off three times its slab is marked, and serves first from then on.
#[test]
fn everything_busy(rt: HostRuntime) -> Result<(), Fail> {
    let mut store = Store::create(rt.alloc(), 3, 3)?;
    let (tally, lines) = settled(&mut store, Stand::Busy);
    assert_eq!(rt; (tally.begun, tally.later), (12, 12));
    let stuck = alone(Some(0));
    assert_eq!(rt; lines, [stuck, stuck, stuck]);
    Ok(())
}

#[test]
fn everything_fixed(rt: HostRuntime) -> Result<(), Fail> {
    let mut store = Store::create(rt.alloc(), 3, 3)?;
    let (tally, lines) = settled(&mut store, Stand::Fixed);
    assert_eq!(rt; (tally.begun, tally.no), (3, 3));
    let stuck = alone(Some(0));
    assert_eq!(rt; lines, [stuck, stuck, stuck]);
    Ok(())
}

#[test]
fn everything_movable(rt: HostRuntime) -> Result<(), Fail> {
    let mut store = Store::create(rt.alloc(), 3, 3)?;
    let (tally, lines) = settled(&mut store, Stand::Movable);
    assert_eq!(rt; (tally.begun, tally.yes), (2, 2));
    assert_eq!(rt;
        lines,
        [
            Some(SlabLine {
                used: 3,
                stuck: None
            }),
            None,
            None
        ]
    );
    Ok(())
}

#[test]
fn everything_spare(rt: HostRuntime) -> Result<(), Fail> {
    let mut store = Store::create(rt.alloc(), 3, 3)?;
    let (tally, lines) = settled(&mut store, Stand::Spare);
    assert_eq!(rt; (tally.begun, tally.dont_need), (2, 2));
    assert_eq!(rt; lines, [alone(None), None, None]);
    Ok(())
}

// The word at 8 is where the word at 2 was.
#[test]
fn a_word_comes_along(rt: HostRuntime) -> Result<(), Fail> {
    let mut store = Store::create(rt.alloc(), 3, 3)?;
    let (_tally, _lines) = settled(&mut store, Stand::Movable);
    assert_eq!(rt;
        (word(&store, 0), word(&store, 1), word(&store, 2)),
        (Some(0), Some(6), Some(3))
    );
    Ok(())
}
