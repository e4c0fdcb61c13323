// The script host's functions.
ghost use Rattle.std.specs.Prelude.{◌≡◌, ◌≤◌, ◌↔◌, length, IsTrue};
ghost use Rattle.values.specs.Few.{items};
ghost use Rattle.host.specs.Meaning.{bind_answer};
ghost use Rattle.sheet.specs.Decode.{sheet_at};
ghost use Rattle.script.specs.Program.{script_start, Advanced};
ghost use Rattle.script.specs.Scripted.{meaning_of};
ghost use Rattle.script.specs.Laws.{script_sound};

use crate::player::ScriptHost;
use host::{BindFault, Host, HostValue, Slot, StepFault, Stepped};
use sheet::CheckedSheet;
use sheet::play::{Move, next_outcome};
use values::few::Few;

impl<'a> ScriptHost<'a> {
    // At the first outcome of a sheet that was read, with every slot null.
    #[tactic(auto, unfolding(crate::specs::Program::script_start))]
    pub fn new(sheet: CheckedSheet<'a>, byte_limit: usize) -> ScriptHost<'a>
        ensures { meaning_of result ≡ script_start (sheet_at sheet.entry.bytes.now) byte_limit }
    {
        ScriptHost {
            sheet,
            slots: Few::filled(Slot::Null, sheet.heading.parameters as usize),
            place: sheet.outcomes,
            index: 0,
            last: None,
            byte_limit,
            code: 0,
        }
    }

    // The next outcome, the bytes behind it, and the number of the one after it.
    // Past the last outcome it is done, and starts over.
    fn advance(&self) -> (Move<'a>, &'a [u8], usize)
        ensures { Advanced self.now.sheet.bytes.now self.now.sheet.heading.columns
            (sheet_at self.now.sheet.bytes.now).outcomes self.now.index
            result.0 result.1.now result.2 }
    {
        match next_outcome(self.place, self.sheet.heading.columns) {
            Some(played) => (played.outcome, played.next, self.index + 1),
            None => (Move::Done, self.sheet.outcomes, 0),
        }
    }

    // Whether there is such a slot, counted from 1.
    fn has_slot(&self, index: usize) -> bool
        ensures { IsTrue result ↔ (1 ≤ index) × (index ≤ length (items self.now.slots)) }
    {
        (1..=self.slots.len()).contains(&index)
    }

    // Whether this slot may be bound, and if not, why.
    #[tactic(auto, unfolding(host::specs::Meaning::bind_fault, host::specs::Meaning::bind_answer))]
    fn may_bind(&self, index: usize, slot: Slot) -> Result<(), BindFault>
        ensures { result ≡ bind_answer (meaning_of self.now) index slot }
    {
        if self.last.is_some() {
            return Err(BindFault::Misuse);
        }
        if !self.has_slot(index) {
            return Err(BindFault::Range);
        }
        if slot.byte_count() > self.byte_limit {
            return Err(BindFault::TooBig);
        }
        Ok(())
    }
}

impl<'a> Host for ScriptHost<'a> {
    ghost meaning = { meaning_of };

    fn parameter_count(&self) -> usize {
        self.sheet.heading.parameters as usize
    }

    fn column_count(&self) -> usize {
        self.sheet.heading.columns as usize
    }

    fn column_name(&self, index: usize) -> Option<&[u8]> {
        self.sheet.column_name(index)
    }

    #[tactic(auto, unfolding(host::specs::Meaning::bind_fault, host::specs::Meaning::bind_answer, host::specs::Meaning::bind_after))]
    fn bind(&mut self, index: usize, value: HostValue<'_>) -> Result<(), BindFault> {
        let slot = Slot::from(value);
        let answer = self.may_bind(index, slot);
        match answer {
            Ok(()) => self.slots.set(index - 1, slot),
            Err(BindFault::TooBig) => self.slots.set(index - 1, Slot::Null),
            Err(BindFault::Misuse | BindFault::Range) => {}
        }
        self.code = answer.err().map_or(0, BindFault::code);
        answer
    }

    #[tactic(auto, unfolding(host::specs::Meaning::reset_after))]
    fn reset(&mut self) {
        self.place = self.sheet.outcomes;
        self.index = 0;
        self.last = None;
    }

    #[tactic(auto, unfolding(host::specs::Meaning::ran, host::specs::Meaning::step_answer, host::specs::Meaning::step_after))]
    fn step(&mut self, text: &[u8], room: &[u8]) -> Result<Stepped, StepFault> {
        let (outcome, place, index) = self.advance();
        self.place = place;
        self.index = index;
        self.last = Some(outcome);
        let answer = match outcome {
            Move::Row(_) => Ok(Stepped::Row),
            Move::Done => Ok(Stepped::Done),
            Move::Failed(code) => Err(StepFault { code }),
        };
        self.code = match answer {
            Ok(stepped) => stepped as u32,
            Err(fault) => fault.code,
        };
        answer
    }

    fn code(&self) -> u32 {
        self.code
    }

    ghost laws = { λ h. script_sound _ h.sheet.good.heading.0 h.sheet.good.heading.1
        h.sheet.good.outcomes h.each };
}
