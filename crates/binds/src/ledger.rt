// The leases that a binding has in the room, and their collection.
ghost use Rattle.std.specs.Prelude.{◌≡◌, ◌+◌, ◌<◌, ◌≤◌, true, [], ◌++◌, length, is_ok, if◌then◌else◌, nat_le};
ghost use Rattle.values.specs.Few.{items};
ghost use Rattle.binds.specs.Pairs.{span_length, lease_of, total_room_bytes, leases_from};

use crate::collector::Span;
use crate::pairs::Pairs;
use values::few::Few;

// The leases, in the order of their values, and how many bytes they take.
#[derive(Clone, Copy)]
pub struct Ledger {
    leases: Few<Span, 32>,
    used: usize,
}

impl Ledger {
    pub fn new() -> Ledger
        ensures none { items result.leases ≡ [] }
        ensures unused { result.used ≡ 0 }
    {
        Ledger {
            leases: Few::new(Span { start: 0, len: 0 }),
            used: 0,
        }
    }

    pub fn len(&self) -> usize
        ensures { result ≡ length (items self.now.leases) }
    {
        self.leases.len()
    }

    pub fn as_slice(&self) -> &[Span]
        ensures { result.now ≡ items self.now.leases }
    {
        self.leases.as_slice()
    }

    // Enters the lease of an owned value where the last one ends.
    fn enter(&mut self, owned: Option<Span>, room: usize) -> Result<(), Full>
        requires few { length (items self.old.leases) < 32 }
        requires fits { self.old.used ≤ room }
        ensures answer { is_ok result ≡ nat_le (self.old.used + span_length owned) room }
        ensures used { self.new.used ≡
            (if is_ok result then self.old.used + span_length owned else self.old.used) }
        ensures leases { items self.new.leases ≡
            (if is_ok result then items self.old.leases ++ lease_of self.old.used owned
            else items self.old.leases) }
    {
        let Some(span) = owned else {
            return Ok(());
        };
        let start = self.used;
        if span.len > room - start {
            return Err(Full);
        }
        self.leases.push(Span { start, ..span });
        self.used = start + span.len;
        Ok(())
    }

    // Enters the leases of the owned values, or stops where the room is too short.
    pub(crate) fn enter_all(&mut self, pairs: &Pairs<'_>, room: usize) -> Result<(), Full>
        requires none { items self.old.leases ≡ [] }
        requires unused { self.old.used ≡ 0 }
        ensures answer { is_ok result ≡ nat_le (total_room_bytes pairs.now) room }
        ensures leases { is_ok result ≡ true → items self.new.leases ≡ leases_from 0 pairs.now }
    {
        for (_, value) in pairs.as_slice() {
            self.enter(value.owned(), room)?;
        }
        Ok(())
    }
}

// The room is too short for a lease.
#[derive(Clone, Copy, PartialEq, Eq, Debug)]
pub struct Full;

// Enters the leases of a collection. Unless the collection is handed on, the ledger is put back as
// it was. Beginning and entering say which ledger is lent and what is put back, since no invariant
// can name the reference that a collection was begun with.
pub struct Collecting<'a> {
    pub(crate) ledger: &'a mut Ledger,
    before: Ledger,
}

impl Drop for Collecting<'_> {
    fn drop(self)
        ensures { self.exit.0.now ≡ self.entry.before }
    {
        let Collecting { ledger, before } = self;
        *ledger = before;
    }
}

impl<'a> Collecting<'a> {
    // Begins a collection with no lease.
    pub fn begin(ledger: &'a mut Ledger) -> Collecting<'a>
        ensures before { result.before ≡ ledger.old }
        ensures none { items result.ledger.now.leases ≡ [] }
        ensures unused { result.ledger.now.used ≡ 0 }
        ensures lender { result.ledger.ghost_name ≡ ledger.entry.ghost_name }
    {
        let before = *ledger;
        *ledger = Ledger::new();
        Collecting { ledger, before }
    }

    // The leases so far.
    pub fn leases(&self) -> Ledger
        ensures { result ≡ self.now.ledger.now }
    {
        let ledger: &Ledger = self.ledger;
        *ledger
    }

    // Hands the collection on: the leases stay in the ledger. It answers how many they are.
    pub fn hand_on(self) -> usize
        ensures count { result ≡ length (items self.entry.ledger.now.leases) }
        ensures same { self.exit.0.now ≡ self.entry.ledger.now }
    {
        let Collecting { ledger, before: _ } = self;
        ledger.len()
    }
}
