// The calls of a statement: set up, bind, execute, end.
ghost use Rattle.std.specs.Prelude.{◌≡◌, ◌<◌, true, length, nat_lt};
ghost use Rattle.binds.specs.Pairs.{all_inside};
ghost use Rattle.binds.specs.Leases.{zeroed};
ghost use Rattle.statement.specs.State.{state_of, set_up};
ghost use Rattle.statement.specs.Calls.{too_long, same_lengths, may_bind_answer, take_says, take_goes, take_leaves, bind_says, bind_goes, bind_leaves, returned_state, current_answer, report_code, stepped_state, execute_says, execute_goes, execute_leaves, end_says, end_goes, end_leaves};
ghost use Rattle.host.specs.Meaning.{step_answer};

use super::{Binding, Executed, HeldRows, Lengths, Report, Statement};
use binds::collector::{SqliteBindValue, all_inside};
use binds::ledger::{Collecting, Ledger};
use binds::pairs::Pairs;
use binds::refusal::Refusal;
use binds::returning::{null_every, null_slots, zero_leases};
use binds::taking::{bind_values, enter_leases, write_owned};
use host::{Host, StepFault, Stepped};
use values::SqliteType;
use values::few::Few;

// The longest text, given bytes and room.
const LONGEST: usize = 65536;

impl HeldRows {
    // Whether any row is held, which stops a bind.
    fn any(&self) -> bool
        ensures { result ≡ nat_lt 0 self.now.count }
    {
        self.count > 0
    }
}

impl Lengths {
    // Whether the text and the room that are lent have these lengths.
    fn are(&self, text: &[u8], room: &[u8]) -> bool
        ensures { result ≡ same_lengths self.now text.now room.now }
    {
        text.len() == self.text && room.len() == self.room
    }
}

// Whether a buffer of a bind is too long.
fn too_long(text: usize, given: usize, room: usize) -> bool
    ensures { result ≡ too_long text given room }
{
    text > LONGEST || given > LONGEST || room > LONGEST
}

// The code that a report carries: the failure's, else 0.
fn report_code(stepped: &Result<Stepped, StepFault>) -> u32
    ensures { result ≡ report_code stepped.now }
{
    match *stepped {
        Ok(_) => 0,
        Err(fault) => fault.code,
    }
}

impl<X: Host> Statement<X> {
    // Sets a statement up over a host, of any kind and in any state: the host is reset, and each of
    // its slots made null.
    #[tactic(auto, unfolding(host::specs::Meaning::reset_after))]
    pub fn new(mut host: X) -> Statement<X>
        ensures { state_of X.Host.meaning result ≡ set_up (X.Host.meaning host) }
    {
        host.reset();
        null_every(&mut host);
        Statement {
            host,
            binding: None,
            held: HeldRows { count: 0 },
            ledger: Ledger::new(),
            nulls: Few::new(0),
            steps: 0,
            report: None,
        }
    }

    // The latest report, if there was one.
    pub fn report(&self) -> Option<Report>
        ensures { result ≡ (state_of X.Host.meaning self.now).report }
    {
        let Statement { report, .. } = self;
        *report
    }

    // What is tested before any value is bound. It answers the values, which are few enough.
    fn may_bind<'a>(
        &self,
        pairs: &'a [(SqliteType, SqliteBindValue)],
        text: &[u8],
        given: &[u8],
        room: usize,
    ) -> Result<Pairs<'a>, Refusal>
        ensures { result ≡
            may_bind_answer (state_of X.Host.meaning self.now) pairs.now text.now given.now room }
    {
        if self.binding.is_some() {
            return Err(Refusal::WrongState);
        }
        if self.held.any() {
            return Err(Refusal::RowHeld);
        }
        if too_long(text.len(), given.len(), room) {
            return Err(Refusal::Length);
        }
        let few = Pairs::new(pairs)?;
        if !all_inside(pairs, text.len(), given.len()) {
            return Err(Refusal::Outside);
        }
        Ok(few)
    }

    // Takes the values up: enters their leases, copies the owned ones into the room and binds each.
    // On every way out but the last the guard puts the ledger back.
    fn take_up(
        &mut self,
        pairs: &Pairs<'_>,
        text: &[u8],
        given: &[u8],
        room: &mut [u8],
    ) -> Result<usize, Refusal>
        requires { all_inside (length text.now) (length given.now) pairs.now ≡ true }
        ensures answer { result ≡ take_says (state_of X.Host.meaning self.old) pairs.now room.old }
        ensures after { state_of X.Host.meaning self.new ≡
            take_goes (state_of X.Host.meaning self.old) pairs.now room.old }
        ensures room { room.new ≡
            take_leaves (state_of X.Host.meaning self.old) pairs.now given.now room.old }
    {
        let mut collecting = Collecting::begin(&mut self.ledger);
        enter_leases(&mut collecting, pairs, room.len())?;
        write_owned(pairs.as_slice(), given, room);
        let mut took = Few::new(0);
        if let Err(refusal) = bind_values(&mut self.host, pairs, text, room, &mut took) {
            self.host.reset();
            null_slots(&mut self.host, took.as_slice());
            let leases = collecting.leases();
            zero_leases(leases.as_slice(), room);
            return Err(refusal);
        }
        self.nulls = took;
        Ok(collecting.hand_on())
    }

    // Binds the values, each at the slot of its number, and answers how many are owned.
    #[tactic(auto, unfolding(crate::specs::Calls::bind_says, crate::specs::Calls::bind_goes, crate::specs::Calls::bind_leaves))]
    pub fn bind(
        &mut self,
        query: u32,
        pairs: &[(SqliteType, SqliteBindValue)],
        text: &[u8],
        given: &[u8],
        room: &mut [u8],
    ) -> Result<usize, Refusal>
        ensures answer { result ≡
            bind_says (state_of X.Host.meaning self.old) pairs.now text.now given.now room.old }
        ensures after { state_of X.Host.meaning self.new ≡
            bind_goes (state_of X.Host.meaning self.old) query
            pairs.now text.now given.now room.old }
        ensures room { room.new ≡
            bind_leaves (state_of X.Host.meaning self.old) pairs.now text.now given.now room.old }
    {
        let pairs = self.may_bind(pairs, text, given, room.len())?;
        let owned = self.take_up(&pairs, text, given, room)?;
        let lengths = Lengths {
            text: text.len(),
            room: room.len(),
        };
        self.binding = Some(Binding { query, lengths });
        Ok(owned)
    }

    // Whether a binding is current, on a text and a room as long as at its bind.
    fn may_go_on(&self, text: &[u8], room: &[u8]) -> Result<(), Refusal>
        ensures { result ≡ current_answer (state_of X.Host.meaning self.now) text.now room.now }
    {
        let binding = self.binding.ok_or(Refusal::WrongState)?;
        if !binding.lengths.are(text, room) {
            return Err(Refusal::Length);
        }
        Ok(())
    }

    // One step of the host, counted.
    fn step(&mut self, text: &[u8], room: &[u8]) -> Result<Stepped, StepFault>
        requires { self.old.steps < 4294967295 }
        ensures answer { result ≡
            step_answer (state_of X.Host.meaning self.old).host text.now room.now }
        ensures after { state_of X.Host.meaning self.new ≡
            stepped_state (state_of X.Host.meaning self.old) text.now room.now }
    {
        self.steps += 1;
        self.host.step(text, room)
    }

    // Returns the binding: the host is reset and its slots with text or bytes made null,
    // the leases are zeroed in the room and given back, and the sink is told once.
    fn give_back(&mut self, code: u32, room: &mut [u8]) -> usize
        ensures answer { result ≡ length (state_of X.Host.meaning self.old).leases }
        ensures after { state_of X.Host.meaning self.new ≡
            returned_state (state_of X.Host.meaning self.old) code }
        ensures room { room.new ≡ zeroed (state_of X.Host.meaning self.old).leases room.old }
    {
        self.host.reset();
        null_slots(&mut self.host, self.nulls.as_slice());
        zero_leases(self.ledger.as_slice(), room);
        let returned = self.ledger.len();
        self.nulls = Few::new(0);
        self.ledger = Ledger::new();
        let binding = self.binding.take();
        self.report = binding.map(|Binding { query, .. }| Report { query, code });
        returned
    }

    // Steps once and returns the binding, whatever the step gave.
    #[tactic(auto, unfolding(crate::specs::Calls::execute_says, crate::specs::Calls::execute_goes, crate::specs::Calls::execute_leaves))]
    pub fn execute(&mut self, text: &[u8], room: &mut [u8]) -> Result<Executed, Refusal>
        ensures answer { result ≡
            execute_says (state_of X.Host.meaning self.old) text.now room.old }
        ensures after { state_of X.Host.meaning self.new ≡
            execute_goes (state_of X.Host.meaning self.old) text.now room.old }
        ensures room { room.new ≡
            execute_leaves (state_of X.Host.meaning self.old) text.now room.old }
    {
        self.may_go_on(text, room)?;
        if self.steps == u32::MAX {
            return Err(Refusal::StepsSpent);
        }
        let stepped = self.step(text, room);
        let returned = self.give_back(report_code(&stepped), room);
        match stepped {
            Ok(stepped) => Ok(Executed { stepped, returned }),
            Err(fault) => Err(Refusal::StepFailed {
                code: fault.code,
                returned,
            }),
        }
    }

    // Returns the binding with no step, and answers how many buffers came back.
    #[tactic(auto, unfolding(crate::specs::Calls::end_says, crate::specs::Calls::end_goes, crate::specs::Calls::end_leaves))]
    pub fn end(&mut self, text: &[u8], room: &mut [u8]) -> Result<usize, Refusal>
        ensures answer { result ≡ end_says (state_of X.Host.meaning self.old) text.now room.old }
        ensures after { state_of X.Host.meaning self.new ≡
            end_goes (state_of X.Host.meaning self.old) text.now room.old }
        ensures room { room.new ≡ end_leaves (state_of X.Host.meaning self.old) text.now room.old }
    {
        self.may_go_on(text, room)?;
        Ok(self.give_back(0, room))
    }
}
