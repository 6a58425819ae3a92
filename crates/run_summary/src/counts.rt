//! How often each kind of reply came.

ghost use Rattle.std.specs.Prelude.{◌≡◌, ◌<◌, ◌-◌, ◌^◌};
ghost use Rattle.run_summary.specs.Counts.{counts_by, counts_in, count_at, counted};

use kmem_model::RecordEntry;
use kmem_text::Reply;

/// How many replies of each kind there are.
#[derive(Clone, Copy)]
pub(crate) struct Counts {
    pub created: u64,
    pub was: u64,
    pub full: u64,
    pub gone: u64,
    pub val: u64,
    pub absent: u64,
    pub found: u64,
    pub numbers: u64,
    pub done: u64,
    pub taken: u64,
    pub many: u64,
    pub used: u64,
    pub idle: u64,
}

/// Counts the replies of a history.
pub(crate) fn count(entries: &[(u32, RecordEntry)]) -> Counts
    ensures { result ≡ counts_in entries.now }
{
    let mut counts = no_replies();
    for entry in entries {
        counts.add(&entry.1.reply);
    }
    counts
}

fn no_replies() -> Counts
    ensures { result ≡ counts_by (λ kind. 0) }
{
    Counts {
        created: 0,
        was: 0,
        full: 0,
        gone: 0,
        val: 0,
        absent: 0,
        found: 0,
        numbers: 0,
        done: 0,
        taken: 0,
        many: 0,
        used: 0,
        idle: 0,
    }
}

impl Counts {
    /// Counts one reply more.
    fn add(&mut self, reply: &Reply)
        requires { count_at self.old reply.now < 2 ^ 64 - 1 }
        ensures { self.new ≡ counted self.old reply.now }
    {
        match reply {
            Reply::New => self.created += 1,
            Reply::Was(_) => self.was += 1,
            Reply::Full => self.full += 1,
            Reply::Gone(_) => self.gone += 1,
            Reply::Val(_) => self.val += 1,
            Reply::Absent => self.absent += 1,
            Reply::At(_, _) => self.found += 1,
            Reply::Number(_) => self.numbers += 1,
            Reply::Done => self.done += 1,
            Reply::Taken => self.taken += 1,
            Reply::Many => self.many += 1,
            Reply::Used => self.used += 1,
            Reply::Idle => self.idle += 1,
        }
    }
}
