ghost use Rattle.std.specs.Prelude.{◌≡◌};
ghost use Rattle.rp_lang.specs.Limits.{limit_text, limit_number};

/// A limit on what is read, checked or run.
#[derive(Clone, Copy, PartialEq, Eq)]
pub enum LimitName {
    /// The bytes of a program's text.
    ProgramBytes,
    /// How deep the text of a program nests, and how deep a formula or an expression is.
    Depth,
    /// Id types and opaque types together.
    Types,
    /// The parts of a type: itself, and those of all fields of its constructors.
    ValueParts,
    /// Replicated objects.
    Roots,
    /// Operations, without `tx`.
    Operations,
    /// Fields and keys on a path.
    PathDepth,
    Procedures,
    Invariants,
    /// The statements of a procedure, those inside others too.
    Statements,
    /// Variables of quantifiers and arms inside one another.
    Quantifiers,
    /// The nodes of a formula or an expression.
    Nodes,
    /// The paths of a procedure.
    Paths,
    /// The goals of a program.
    Goals,
    /// The bytes of a schedule's text.
    ScheduleBytes,
    /// The values of each id type and opaque type.
    Universe,
    /// The steps of a schedule.
    Steps,
    /// The calls of a history.
    Calls,
    Invocations,
    /// The work that the formulas of a step take.
    Breadth,
    /// The integers of a run, on either side of 0.
    Integer,
}

impl LimitName {
    pub fn name(self) -> &'static str
        ensures { result.now ≡ limit_text self }
    {
        match self {
            LimitName::ProgramBytes => "program bytes",
            LimitName::Depth => "depth",
            LimitName::Types => "types",
            LimitName::ValueParts => "value parts",
            LimitName::Roots => "roots",
            LimitName::Operations => "operations",
            LimitName::PathDepth => "path depth",
            LimitName::Procedures => "procedures",
            LimitName::Invariants => "invariants",
            LimitName::Statements => "statements",
            LimitName::Quantifiers => "quantifiers",
            LimitName::Nodes => "nodes",
            LimitName::Paths => "paths",
            LimitName::Goals => "goals",
            LimitName::ScheduleBytes => "schedule bytes",
            LimitName::Universe => "universe",
            LimitName::Steps => "steps",
            LimitName::Calls => "calls",
            LimitName::Invocations => "invocations",
            LimitName::Breadth => "breadth",
            LimitName::Integer => "integer",
        }
    }

    /// The greatest number that is within the limit.
    pub fn number(self) -> u64
        ensures { result ≡ limit_number self }
    {
        match self {
            LimitName::ProgramBytes => 262_144,
            LimitName::Depth => 64,
            LimitName::Types => 64,
            LimitName::ValueParts => 1_000,
            LimitName::Roots => 64,
            LimitName::Operations => 256,
            LimitName::PathDepth => 6,
            LimitName::Procedures => 64,
            LimitName::Invariants => 64,
            LimitName::Statements => 200,
            LimitName::Quantifiers => 16,
            LimitName::Nodes => 100_000,
            LimitName::Paths => 1_024,
            LimitName::Goals => 2_048,
            LimitName::ScheduleBytes => 4_194_304,
            LimitName::Universe => 64,
            LimitName::Steps => 100_000,
            LimitName::Calls => 16_384,
            LimitName::Invocations => 16_384,
            LimitName::Breadth => 50_000_000,
            LimitName::Integer => 9_223_372_036_854_775_807,
        }
    }
}
