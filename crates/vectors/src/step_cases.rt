// The cases of the steps of a trio, which work with the parts of registers.
use crate::answers::Answers;
use crate::inputs::Room;
use crate::line::Line;
use crate::registers::Registers;
use crate::trio_cases::lay_closed;
use trio::merging::merge;
use trio::rows::work_row;
use trio_closings::closing::close;
use trio_opening::opening::open_part;
use trio_parts::part::{Part, Stepped};

// What came back from a step goes into a register.
pub fn stepped(answers: &mut Answers, register: &mut Part, step: Stepped) {
    *register = step.part;
    answers.outcome(&step.outcome);
}

// An opening under a rule.
fn opened(line: &mut Line, answers: &mut Answers, register: &mut Part, rule: u64) -> Option<()> {
    let mut room = Room::new();
    let input = room.read(line)?;
    line.end()?;
    let made = open_part(input.clusters, input.counts, input.weights, rule);
    stepped(answers, register, Stepped::from(made));
    Some(())
}

pub fn open(line: &mut Line, registers: &mut Registers, answers: &mut Answers) -> Option<()> {
    let register = registers.get_mut(line.place()?)?;
    opened(line, answers, register, 1)
}

pub fn open_by(line: &mut Line, registers: &mut Registers, answers: &mut Answers) -> Option<()> {
    let register = registers.get_mut(line.place()?)?;
    let rule = u64::from(line.number()?);
    opened(line, answers, register, rule)
}

// A row of a register's part is worked.
pub fn row(line: &mut Line, registers: &mut Registers, answers: &mut Answers) -> Option<()> {
    let register = registers.get_mut(line.place()?)?;
    let f = u64::from(line.number()?);
    line.end()?;
    stepped(answers, register, work_row(*register, f));
    Some(())
}

// The second register's part is merged into the first one's.
pub fn merged(line: &mut Line, registers: &mut Registers, answers: &mut Answers) -> Option<()> {
    let (first, second) = (line.place()?, line.place()?);
    line.end()?;
    let other = *registers.get(second)?;
    let register = registers.get_mut(first)?;
    stepped(answers, register, merge(*register, other));
    Some(())
}

pub fn closing(line: &mut Line, registers: &mut Registers, answers: &mut Answers) -> Option<()> {
    let register = registers.get_mut(line.place()?)?;
    line.end()?;
    let c = close(*register);
    *register = c.part;
    lay_closed(answers, &c);
    Some(())
}
