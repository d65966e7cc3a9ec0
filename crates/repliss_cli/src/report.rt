// Reports, their statuses and their lines.
ghost use Rattle.std.specs.Prelude.{◌≡◌, ◌++◌, ◌∷◌, [], codes, decimal, flat_map, length, string_bytes, IfOk, OnOk};
ghost use Rattle.rp_io.specs.Sinks.{bytes_of};
ghost use Rattle.repliss_cli.specs.Texts.{goal_line, choice_text, fault_name, goals_end, path_text, limit_line, place_text, report_text, rule_line, status_of, status_of_ending, number_of, unproved_line, usage_lines, verified_line, zero_before};

use rp_lang::LimitName;
use rp_lexer::LexFault;
use rp_span::Pos;
use rp_value::{Bytes, List, Memory};
use std::alloc::Global;

/// How a command ends.
#[derive(Clone, Copy, PartialEq, Eq)]
pub enum Status {
    Fine,
    Found,
    Refused,
    ReadFault,
    WriteFault,
    NoMemory,
}

impl Status {
    /// The number with which the process ends.
    pub fn number(self) -> u8
        ensures { result ≡ number_of self }
    {
        match self {
            Status::Fine => 0,
            Status::Found => 1,
            Status::Refused => 2,
            Status::ReadFault => 3,
            Status::WriteFault => 4,
            Status::NoMemory => 5,
        }
    }
}

/// An unproved goal: its number from 1, its procedure, the choices on its path, and where its statement stands.
#[derive(Drop)]
pub struct GoalLine {
    pub goal: u32,
    pub proc: Bytes,
    pub path: List<u32>,
    pub at: Pos,
}

/// How a schedule ends, or that it is refused.
#[derive(Clone, Copy)]
pub enum Ending {
    Clean,
    Violated,
    Refused,
}

impl Ending {
    /// How a replay is answered that ends so.
    fn status(self) -> Status
        ensures { result ≡ status_of_ending self }
    {
        match self {
            Ending::Clean => Status::Fine,
            Ending::Violated => Status::Found,
            Ending::Refused => Status::Refused,
        }
    }
}

/// What a command tells.
#[derive(Drop)]
pub enum Report {
    Verified { goals: u32 },
    Unproved { goals: u32, list: List<GoalLine> },
    Usage,
    /// The first fault among the tokens, and where it stands.
    Lex { fault: LexFault, at: Pos },
    /// Where the first token stands that can't follow.
    Syntax { at: Pos },
    /// The limit that the text or its program passes.
    Limit(LimitName),
    /// The first broken type rule, by its number, and where the offending item begins.
    Rule { rule: u8, at: Pos },
    NotYet,
    /// How a replay ends, and the line that says it.
    Schedule { ending: Ending, line: Bytes },
}

impl Report {
    /// How a command ends that tells this.
    pub fn status(&self) -> Status
        ensures { result ≡ status_of self.now }
    {
        match self {
            Report::Verified { .. } => Status::Fine,
            Report::Unproved { .. } => Status::Found,
            Report::Usage
            | Report::Lex { .. }
            | Report::Syntax { .. }
            | Report::Limit(_)
            | Report::Rule { .. }
            | Report::NotYet => Status::Refused,
            Report::Schedule { ending, .. } => ending.status(),
        }
    }
}

/// Adds text at the end of a line.
fn add_text(line: &mut Vec<u8>, text: &str) -> Result<(), Memory>
    ensures { OnOk result (line.new.items ≡ line.old.items ++ text.now) }
{
    line.extend_from_slice(text.as_bytes())?;
    Ok(())
}

/// Adds a choice behind a point.
fn add_choice(alloc: Global, line: &mut Vec<u8>, choice: u32) -> Result<(), Memory>
    ensures { OnOk result (line.new.items ≡ line.old.items ++ choice_text choice) }
{
    add_text(line, &format!(in alloc; ".{choice}")?)
}

/// Adds further choices of a path, each behind a point.
fn add_choices(alloc: Global, line: &mut Vec<u8>, choices: &[u32]) -> Result<(), Memory>
    ensures { OnOk result (line.new.items ≡ line.old.items ++ flat_map choice_text choices.now) }
{
    for choice in choices {
        add_choice(alloc, line, *choice)?;
    }
    Ok(())
}

/// Adds the first choice of a path.
fn add_first(alloc: Global, line: &mut Vec<u8>, choice: u32) -> Result<(), Memory>
    ensures { OnOk result (line.new.items ≡ line.old.items ++ decimal choice) }
{
    add_text(line, &format!(in alloc; "{choice}")?)
}

/// Adds the choices of a path, joined by points, or `-` where there is none.
fn add_path(alloc: Global, line: &mut Vec<u8>, path: &[u32]) -> Result<(), Memory>
    ensures { OnOk result (line.new.items ≡ line.old.items ++ path_text path.now) }
{
    let Some((first, rest)) = path.split_first() else {
        return add_text(line, "-");
    };
    add_first(alloc, line, *first)?;
    add_choices(alloc, line, rest)
}

/// The line of an unproved goal.
fn line_of_goal(alloc: Global, goal: &GoalLine) -> Result<Vec<u8>, Memory>
    ensures { IfOk result (λ line. line.items ≡ goal_line goal.now) }
{
    let number = goal.goal;
    let line_number = goal.at.line;
    let column = goal.at.col;
    let mut line = format!(in alloc; "goal {number} assert ")?.into_bytes();
    line.extend_from_slice(goal.proc.as_slice())?;
    add_text(&mut line, " path ")?;
    add_path(alloc, &mut line, goal.path.as_slice())?;
    add_text(
        &mut line,
        &format!(in alloc; " at {line_number}:{column}\n")?,
    )?;
    Ok(line)
}

/// Adds the bytes of a line.
fn add_bytes(alloc: Global, lines: &mut Vec<Vec<u8>>, line: &[u8]) -> Result<(), Memory>
    ensures { OnOk result (bytes_of lines.new.items ≡ bytes_of lines.old.items ++ line.now) }
{
    lines.push(line.to_vec(alloc)?)?;
    Ok(())
}

/// Adds a line.
fn add_line(alloc: Global, lines: &mut Vec<Vec<u8>>, line: &str) -> Result<(), Memory>
    ensures { OnOk result (bytes_of lines.new.items ≡ bytes_of lines.old.items ++ line.now) }
{
    add_bytes(alloc, lines, line.as_bytes())
}

/// Adds the lines of unproved goals.
fn add_goals(alloc: Global, lines: &mut Vec<Vec<u8>>, goals: &[GoalLine]) -> Result<(), Memory>
    ensures { OnOk result (bytes_of lines.new.items
        ≡ bytes_of lines.old.items ++ flat_map goal_line goals.now) }
{
    for goal in goals {
        lines.push(line_of_goal(alloc, goal)?)?;
    }
    Ok(())
}

/// The end of a line that counts goals.
fn goals_end(goals: u32) -> &'static str
    ensures { result.now ≡ goals_end goals }
{
    if goals == 1 { " goal\n" } else { " goals\n" }
}

/// The first line of a report that names unproved goals.
fn unproved_line(alloc: Global, unproved: usize, goals: u32) -> Result<String, Memory>
    ensures { IfOk result (λ line. string_bytes line ≡ unproved_line unproved goals) }
{
    let end = goals_end(goals);
    Ok(format!(in alloc; "unproved: {unproved} of {goals}{end}")?)
}

fn verified_line(alloc: Global, goals: u32) -> Result<String, Memory>
    ensures { IfOk result (λ line. string_bytes line ≡ verified_line goals) }
{
    let end = goals_end(goals);
    Ok(format!(in alloc; "verified: {goals}{end}")?)
}

/// What a fault among the tokens is called.
fn fault_name(fault: LexFault) -> &'static str
    ensures { result.now ≡ fault_name fault }
{
    match fault {
        LexFault::BadByte => "bad byte",
        LexFault::OpenString => "open string",
        LexFault::NumberRange => "number range",
    }
}

/// A line that ends with a place.
fn line_with_place(alloc: Global, head: &str, at: &Pos) -> Result<String, Memory>
    ensures { IfOk result (λ line. string_bytes line ≡ head.now ++ place_text at.now) }
{
    let line = at.line;
    let column = at.col;
    Ok(format!(in alloc; "{head} at {line}:{column}\n")?)
}

/// The line of a fault among the tokens.
fn lex_line(alloc: Global, fault: LexFault, at: &Pos) -> Result<String, Memory>
    ensures { IfOk result (λ line. string_bytes line
        ≡ codes "refused: lex " ++ (fault_name fault ++ place_text at.now)) }
{
    let name = fault_name(fault);
    let line = at.line;
    let column = at.col;
    Ok(format!(in alloc; "refused: lex {name} at {line}:{column}\n")?)
}

/// The line of a limit that is passed.
fn limit_line(alloc: Global, limit: LimitName) -> Result<String, Memory>
    ensures { IfOk result (λ line. string_bytes line ≡ limit_line limit) }
{
    let name = limit.name();
    let number = limit.number();
    Ok(format!(in alloc; "refused: limit {name} {number}\n")?)
}

/// What stands before a type rule's number, so that it has two digits.
fn zero_before(rule: u8) -> &'static str
    ensures { result.now ≡ zero_before rule }
{
    if rule < 10 { "0" } else { "" }
}

/// The line of a broken type rule.
fn rule_line(alloc: Global, rule: u8, at: &Pos) -> Result<String, Memory>
    ensures { IfOk result (λ line. string_bytes line ≡ rule_line rule at.now) }
{
    let zero = zero_before(rule);
    let line = at.line;
    let column = at.col;
    Ok(format!(in alloc; "refused: type T{zero}{rule} at {line}:{column}\n")?)
}

/// Adds the lines of a report that names unproved goals.
fn add_unproved(
    alloc: Global,
    lines: &mut Vec<Vec<u8>>,
    goals: u32,
    list: &[GoalLine],
) -> Result<(), Memory>
    ensures { OnOk result (bytes_of lines.new.items
        ≡ bytes_of lines.old.items ++ (unproved_line (length list.now) goals ++ flat_map goal_line list.now)) }
{
    add_line(
        alloc,
        lines,
        unproved_line(alloc, list.len(), goals)?.as_str(),
    )?;
    add_goals(alloc, lines, list)
}

/// Adds the lines of the usage, one for each command.
fn add_usage(alloc: Global, lines: &mut Vec<Vec<u8>>) -> Result<(), Memory>
    ensures { OnOk result (bytes_of lines.new.items
        ≡ bytes_of lines.old.items ++ (codes "refused: usage\n" ++ usage_lines)) }
{
    add_line(alloc, lines, "refused: usage\n")?;
    add_line(alloc, lines, "usage: repliss verify FILE\n")?;
    add_line(alloc, lines, "usage: repliss replay FILE SCHEDULE\n")
}

/// Adds the lines of a report.
fn add_lines(alloc: Global, lines: &mut Vec<Vec<u8>>, report: &Report) -> Result<(), Memory>
    ensures { OnOk result (bytes_of lines.new.items ≡ bytes_of lines.old.items ++ report_text report.now) }
{
    match report {
        Report::Verified { goals } => add_line(
            alloc,
            lines,
            verified_line(alloc, *goals)?.as_str(),
        ),
        Report::Unproved { goals, list } => add_unproved(alloc, lines, *goals, list.as_slice()),
        Report::Usage => add_usage(alloc, lines),
        Report::Lex { fault, at } => add_line(alloc, lines, lex_line(alloc, *fault, at)?.as_str()),
        Report::Syntax { at } => add_line(
            alloc,
            lines,
            line_with_place(alloc, "refused: syntax", at)?.as_str(),
        ),
        Report::Limit(limit) => add_line(alloc, lines, limit_line(alloc, *limit)?.as_str()),
        Report::Rule { rule, at } => add_line(alloc, lines, rule_line(alloc, *rule, at)?.as_str()),
        Report::NotYet => add_line(alloc, lines, "refused: not yet\n"),
        Report::Schedule { line, .. } => add_bytes(alloc, lines, line.as_slice()),
    }
}

/// The lines of a report, each with its newline.
pub fn lines(alloc: Global, report: &Report) -> Result<Vec<Vec<u8>>, Memory>
    ensures { IfOk result (λ lines. bytes_of lines.items ≡ report_text report.now) }
{
    let mut lines = Vec::new(alloc);
    add_lines(alloc, &mut lines, report)?;
    Ok(lines)
}
