//! The whole use of a stub: a shelf that lends its item's number and knows, of each ticket that comes, that the item still stands.
ghost use Rattle.std.specs.Prelude.{◌≡◌, false, IfSome};

mod buffers;

use crate::{Slip, Stub};
use std::alloc::{AllocError, Global};
use std::marker::{Brand, Model, PhantomData};
use std::sync::{Mutex, Wait};
use std::test::Fail;
use std::thread::{Threads, join};

// Names the stub of a shelf.
trait Room {
    ghost use Rattle.atomic_table.specs.Seated.{TableId};

    ghost home: { TableId };
}

impl Room for Brand {
    ghost use Rattle.kmem_buf.specs.Stubs.{nowhere};

    ghost home = { nowhere };
}

// The shelf has an item. While a ticket is out, it is the item of that ticket.
#[derive(Drop)]
struct Shelf<R: Room> {
    item: u64,
    is_lent: bool,
    stub: Stub,
    room: PhantomData<R>,
}

impl<R: Room> Model for Shelf<R> {
    ghost use Rattle.std.specs.Prelude.{◌≡◌, ℕ, Bool, true, [], ◌∷◌};

    ghost Value = { ℕ × Bool };

    ghost view = { λ s. (s.item, s.is_lent) };

    ghost invariant = { λ s. (s.stub.home ≡ R.home) × (s.stub.issued ≡ s.is_lent) ×
        (s.is_lent ≡ true → s.stub.facts ≡ s.item ∷ 0 ∷ 0 ∷ []) };
}

#[derive(Drop)]
struct Ticket<R: Room> {
    item: u64,
    slip: Slip,
    room: PhantomData<R>,
}

impl<R: Room> Model for Ticket<R> {
    ghost use Rattle.std.specs.Prelude.{◌≡◌, ℕ, [], ◌∷◌};

    ghost Value = { ℕ };

    ghost view = { λ t. t.item };

    ghost invariant = { λ t. (t.slip.home ≡ R.home) × (t.slip.facts ≡ t.item ∷ 0 ∷ 0 ∷ []) };
}

impl<R: Room> Shelf<R> {
    fn new(item: u64, stub: Stub) -> Shelf<R>
        requires { (stub.issued ≡ false) × (stub.home ≡ R.home) }
        ensures { result ≡ (item, false) }
    {
        Shelf {
            item,
            is_lent: false,
            stub,
            room: PhantomData,
        }
    }

    fn lend(&mut self) -> Option<Ticket<R>>
        ensures { IfSome result (λ t. t ≡ self.old.0) }
    {
        if self.is_lent {
            return None;
        }
        self.is_lent = true;
        Some(Ticket {
            item: self.item,
            slip: self.stub.issue([self.item, 0, 0]),
            room: PhantomData,
        })
    }

    fn look(&mut self, ticket: &mut Ticket<R>) -> u64
        ensures item { result ≡ ticket.old }
        ensures shelf { self.new ≡ self.old }
        ensures ticket { ticket.new ≡ ticket.old }
    {
        self.stub.meet(&mut ticket.slip);
        self.item
    }

    fn exchange(&mut self, ticket: Ticket<R>, next: u64) -> Ticket<R>
        ensures ticket { result ≡ next }
        ensures shelf { self.new ≡ (next, self.old.1) }
    {
        let Ticket {
            item: _,
            slip,
            room: _,
        } = ticket;
        self.item = next;
        Ticket {
            item: next,
            slip: self.stub.reissue(slip, [next, 0, 0]),
            room: PhantomData,
        }
    }

    fn take_back(&mut self, ticket: Ticket<R>, next: u64) -> u64
        ensures item { result ≡ ticket }
        ensures shelf { self.new ≡ (next, false) }
    {
        let Ticket {
            item: _,
            slip,
            room: _,
        } = ticket;
        self.stub.redeem(slip);
        self.is_lent = false;
        let item = self.item;
        self.item = next;
        item
    }
}

// One thread looks at the shelf with the ticket, and then another does.
fn by_two_threads<R: Room + Send + Sync, T: Threads + Wait + Sync>(
    rt: &T,
    shelf: &Mutex<Shelf<R>>,
    mut ticket: Ticket<R>,
) -> (u64, u64, Ticket<R>) {
    let ((first, ticket), ()) = join(
        rt,
        move || {
            let item = shelf.lock(rt).look(&mut ticket);
            (item, ticket)
        },
        || (),
    );
    let mut ticket = ticket;
    let ((), (second, ticket)) = join(
        rt,
        || (),
        move || {
            let item = shelf.lock(rt).look(&mut ticket);
            (item, ticket)
        },
    );
    (first, second, ticket)
}

fn lent_under_a_lock<R: Room + Send + Sync, T: Threads + Wait + Sync>(
    rt: &T,
    stub: Stub,
) -> Option<[u64; 3]>
    requires { (stub.issued ≡ false) × (stub.home ≡ R.home) }
{
    let shelf = Mutex::new(Shelf::<R>::new(7, stub));
    let ticket = shelf.lock(rt).lend()?;
    let (first, second, ticket) = by_two_threads(rt, &shelf, ticket);
    let third = shelf.lock(rt).take_back(ticket, 8);
    Some([first, second, third])
}

#[test]
fn a_slip_crosses_threads(rt: HostRuntime) -> Result<(), Fail> {
    let stub = Stub::create(rt.alloc())?;
    assert_eq!(rt; lent_under_a_lock::<Brand, _>(&rt, stub), Some([7, 7, 7]));
    Ok(())
}

// Lends the item, looks twice, takes it back, lends the next, and exchanges that.
fn lent_twice<R: Room>(stub: Stub) -> Option<[u64; 5]>
    requires { (stub.issued ≡ false) × (stub.home ≡ R.home) }
{
    let mut shelf = Shelf::<R>::new(7, stub);
    let mut ticket = shelf.lend()?;
    let first = shelf.look(&mut ticket);
    let again = shelf.look(&mut ticket);
    let back = shelf.take_back(ticket, 8);
    let ticket = shelf.lend()?;
    let mut ticket = shelf.exchange(ticket, 9);
    let next = shelf.look(&mut ticket);
    let last = shelf.take_back(ticket, 10);
    Some([first, again, back, next, last])
}

#[test]
fn a_stub_is_issued_again(rt: HostRuntime) -> Result<(), Fail> {
    let mut stubs = Stub::create_all(rt.alloc(), 2)?;
    assert_eq!(rt; stubs.len(), 2);
    let Some(stub) = stubs.pop() else {
        return Ok(());
    };
    assert_eq!(rt; lent_twice::<Brand>(stub), Some([7, 7, 7, 9, 9]));
    Ok(())
}
