//! Worked texts. The functions do nothing; what they ensure is proved.

ghost use Rattle.type_rows.specs.Names as names_rows;
ghost use Rattle.type_rows.specs.Uses as uses_rows;
ghost use Rattle.type_rows.specs.Types as types_rows;
ghost use Rattle.type_rows.specs.Words as words_rows;
ghost use Rattle.type_rows.specs.Operands as operands_rows;
ghost use Rattle.type_rows.specs.Terms as terms_rows;
ghost use Rattle.type_rows.specs.Paths as paths_rows;
ghost use Rattle.type_rows.specs.Arguments as arguments_rows;
ghost use Rattle.type_rows.specs.Variables as variables_rows;
ghost use Rattle.type_rows.specs.Matches as matches_rows;
ghost use Rattle.type_rows.specs.Blocks as blocks_rows;
ghost use Rattle.type_rows.specs.Values as values_rows;

/// T01 to T05: names.
pub fn names()
    ensures same_types { names_rows.SameTypes }
    ensures root_and_query { names_rows.RootAndQuery }
    ensures constructor_and_procedure { names_rows.ConstructorAndProcedure }
    ensures same_constructors { names_rows.SameConstructors }
    ensures same_invariants { names_rows.SameInvariants }
    ensures same_parameters { names_rows.SameParameters }
    ensures same_fields { names_rows.SameFields }
    ensures same_struct_fields { names_rows.SameStructFields }
    ensures first_of_two { names_rows.FirstOfTwo }
    ensures names_of_different_kinds { names_rows.NamesOfDifferentKinds }
    ensures invariants_without_names { names_rows.InvariantsWithoutNames }
    ensures type_after_its_use { names_rows.TypeAfterItsUse }
    ensures type_in_itself { names_rows.TypeInItself }
    ensures type_nowhere { names_rows.TypeNowhere }
    ensures new_before_its_type { names_rows.NewBeforeItsType }
    ensures types_before_their_use { names_rows.TypesBeforeTheirUse }
{}

/// T03 to T05: uses of names.
pub fn uses()
    ensures query_after_its_use { uses_rows.QueryAfterItsUse }
    ensures query_in_itself { uses_rows.QueryInItself }
    ensures query_after_its_procedure { uses_rows.QueryAfterItsProcedure }
    ensures others_after_their_use { uses_rows.OthersAfterTheirUse }
    ensures name_nowhere { uses_rows.NameNowhere }
    ensures use_of_nothing { uses_rows.UseOfNothing }
    ensures assigned_nowhere { uses_rows.AssignedNowhere }
    ensures statement_of_nothing { uses_rows.StatementOfNothing }
    ensures pattern_of_nothing { uses_rows.PatternOfNothing }
    ensures out_of_its_block { uses_rows.OutOfItsBlock }
    ensures unknown_operand { uses_rows.UnknownOperand }
    ensures none_beside_unknown { uses_rows.NoneBesideUnknown }
    ensures some_of_unknown { uses_rows.SomeOfUnknown }
    ensures new_of_opaque { uses_rows.NewOfOpaque }
    ensures new_of_id { uses_rows.NewOfId }
{}

/// T06 to T08 and T24: types.
pub fn types()
    ensures call_parameter { types_rows.CallParameter }
    ensures invocation_element { types_rows.InvocationElement }
    ensures maybe_call { types_rows.MaybeCall }
    ensures call_result { types_rows.CallResult }
    ensures calls_in_queries { types_rows.CallsInQueries }
    ensures maybe_call_element { types_rows.MaybeCallElement }
    ensures maybe_invocation_field { types_rows.MaybeInvocationField }
    ensures data_elements { types_rows.DataElements }
    ensures over_integers { types_rows.OverIntegers }
    ensures over_a_datatype { types_rows.OverADatatype }
    ensures over_maybe_calls { types_rows.OverMaybeCalls }
    ensures over_ranges { types_rows.OverRanges }
    ensures maybe_call_parameter { types_rows.MaybeCallParameter }
    ensures maybe_invocation_result { types_rows.MaybeInvocationResult }
    ensures maybe_call_variable { types_rows.MaybeCallVariable }
    ensures data_variables { types_rows.DataVariables }
{}

/// T09: words on calls and invocations.
pub fn words()
    ensures quantifier_in_a_procedure { words_rows.QuantifierInAProcedure }
    ensures later_variable { words_rows.LaterVariable }
    ensures word_in_a_procedure { words_rows.WordInAProcedure }
    ensures returned_in_a_procedure { words_rows.ReturnedInAProcedure }
    ensures query_of_a_procedure { words_rows.QueryOfAProcedure }
    ensures through_a_query { words_rows.ThroughAQuery }
    ensures queries_of_invariants { words_rows.QueriesOfInvariants }
    ensures query_of_nobody { words_rows.QueryOfNobody }
{}

/// T10: operands.
pub fn operands()
    ensures not_a_number { operands_rows.NotANumber }
    ensures and_a_number { operands_rows.AndANumber }
    ensures number_implies { operands_rows.NumberImplies }
    ensures negative_number { operands_rows.NegativeNumber }
    ensures sum_in_a_chain { operands_rows.SumInAChain }
    ensures plus_a_truth { operands_rows.PlusATruth }
    ensures order_of_truths { operands_rows.OrderOfTruths }
    ensures different_sides { operands_rows.DifferentSides }
    ensures quantifier_as_a_side { operands_rows.QuantifierAsASide }
    ensures two_nones { operands_rows.TwoNones }
    ensures none_for_a_number { operands_rows.NoneForANumber }
    ensures number_for_a_none { operands_rows.NumberForANone }
    ensures some_of_a_call { operands_rows.SomeOfACall }
    ensures some_of_another { operands_rows.SomeOfAnother }
    ensures none_in_some { operands_rows.NoneInSome }
    ensures none_in_an_assigned_some { operands_rows.NoneInAnAssignedSome }
    ensures none_in_a_side { operands_rows.NoneInASide }
    ensures none_in_an_argument { operands_rows.NoneInAnArgument }
    ensures body_no_truth { operands_rows.BodyNoTruth }
    ensures nones_that_are_asked { operands_rows.NonesThatAreAsked }
    ensures operands_that_fit { operands_rows.OperandsThatFit }
{}

/// T11: plain terms.
pub fn terms()
    ensures chain_as_a_side { terms_rows.ChainAsASide }
    ensures store_query_as_a_side { terms_rows.StoreQueryAsASide }
    ensures part_not_plain { terms_rows.PartNotPlain }
    ensures query_not_plain { terms_rows.QueryNotPlain }
    ensures key_not_plain { terms_rows.KeyNotPlain }
    ensures argument_not_plain { terms_rows.ArgumentNotPlain }
    ensures argument_of_some { terms_rows.ArgumentOfSome }
    ensures matched_not_plain { terms_rows.MatchedNotPlain }
    ensures plain_terms { terms_rows.PlainTerms }
{}

/// T12 and T13: paths, operations and procedures.
pub fn paths()
    ensures no_such_member { paths_rows.NoSuchMember }
    ensures ends_too_early { paths_rows.EndsTooEarly }
    ensures key_of_a_struct { paths_rows.KeyOfAStruct }
    ensures path_from_a_variable { paths_rows.PathFromAVariable }
    ensures beyond_a_query { paths_rows.BeyondAQuery }
    ensures returned_of_a_root { paths_rows.ReturnedOfARoot }
    ensures paths_that_fit { paths_rows.PathsThatFit }
    ensures operation_alone { paths_rows.OperationAlone }
    ensures tx_alone { paths_rows.TxAlone }
    ensures procedure_as_a_statement { paths_rows.ProcedureAsAStatement }
    ensures query_as_a_statement { paths_rows.QueryAsAStatement }
    ensures variable_as_a_statement { paths_rows.VariableAsAStatement }
    ensures unreturned_alone { paths_rows.UnreturnedAlone }
    ensures beside_their_words { paths_rows.BesideTheirWords }
{}

/// T14: arguments.
pub fn arguments()
    ensures argument_of_another_type { arguments_rows.ArgumentOfAnotherType }
    ensures one_too_few { arguments_rows.OneTooFew }
    ensures query_without_parentheses { arguments_rows.QueryWithoutParentheses }
    ensures use_without_parentheses { arguments_rows.UseWithoutParentheses }
    ensures variable_with_parentheses { arguments_rows.VariableWithParentheses }
    ensures constructor_with_parentheses { arguments_rows.ConstructorWithParentheses }
    ensures word_with_two { arguments_rows.WordWithTwo }
    ensures word_of_an_invocation { arguments_rows.WordOfAnInvocation }
    ensures word_of_a_truth { arguments_rows.WordOfATruth }
    ensures before_of_both { arguments_rows.BeforeOfBoth }
    ensures returned_with_one { arguments_rows.ReturnedWithOne }
    ensures key_of_another_type { arguments_rows.KeyOfAnotherType }
    ensures arguments_that_fit { arguments_rows.ArgumentsThatFit }
{}

/// T15 to T17: variables.
pub fn variables()
    ensures assigned_too_early { variables_rows.AssignedTooEarly }
    ensures read_too_early { variables_rows.ReadTooEarly }
    ensures name_in_sight { variables_rows.NameInSight }
    ensures name_of_a_root { variables_rows.NameOfARoot }
    ensures name_of_a_procedure { variables_rows.NameOfAProcedure }
    ensures name_of_a_query { variables_rows.NameOfAQuery }
    ensures quantified_twice { variables_rows.QuantifiedTwice }
    ensures assigned_root { variables_rows.AssignedRoot }
    ensures name_of_a_constructor { variables_rows.NameOfAConstructor }
    ensures names_in_two_blocks { variables_rows.NamesInTwoBlocks }
    ensures read_without_a_value { variables_rows.ReadWithoutAValue }
    ensures read_in_its_own_value { variables_rows.ReadInItsOwnValue }
    ensures value_on_one_way { variables_rows.ValueOnOneWay }
    ensures value_in_one_arm { variables_rows.ValueInOneArm }
    ensures value_on_both_ways { variables_rows.ValueOnBothWays }
    ensures other_way_returns { variables_rows.OtherWayReturns }
    ensures no_way_goes_on { variables_rows.NoWayGoesOn }
    ensures assigned_parameter { variables_rows.AssignedParameter }
    ensures assigned_pattern_variable { variables_rows.AssignedPatternVariable }
    ensures assigned_variable { variables_rows.AssignedVariable }
{}

/// T18: matches.
pub fn matches()
    ensures match_of_a_number { matches_rows.MatchOfANumber }
    ensures arm_missing { matches_rows.ArmMissing }
    ensures arm_missing_in_an_expression { matches_rows.ArmMissingInAnExpression }
    ensures arm_twice { matches_rows.ArmTwice }
    ensures variable_too_many { matches_rows.VariableTooMany }
    ensures match_of_a_none { matches_rows.MatchOfANone }
    ensures other_arms_of_a_none { matches_rows.OtherArmsOfANone }
    ensures no_arm_of_a_none { matches_rows.NoArmOfANone }
    ensures constructor_of_another { matches_rows.ConstructorOfAnother }
    ensures root_as_a_pattern { matches_rows.RootAsAPattern }
    ensures matches_that_fit { matches_rows.MatchesThatFit }
{}

/// T19 and T20: atomic blocks and returns.
pub fn blocks()
    ensures atomic_in_atomic { blocks_rows.AtomicInAtomic }
    ensures atomic_in_a_branch { blocks_rows.AtomicInABranch }
    ensures atomic_after_atomic { blocks_rows.AtomicAfterAtomic }
    ensures no_return { blocks_rows.NoReturn }
    ensures return_in_atomic { blocks_rows.ReturnInAtomic }
    ensures return_not_last { blocks_rows.ReturnNotLast }
    ensures return_with_a_value { blocks_rows.ReturnWithAValue }
    ensures return_without_a_value { blocks_rows.ReturnWithoutAValue }
    ensures one_way_returns { blocks_rows.OneWayReturns }
    ensures both_ways_return { blocks_rows.BothWaysReturn }
    ensures all_arms_return { blocks_rows.AllArmsReturn }
{}

/// T21 to T23: queries, truths and values.
pub fn values()
    ensures body_of_another_type { values_rows.BodyOfAnotherType }
    ensures sum_as_a_body { values_rows.SumAsABody }
    ensures body_that_fits { values_rows.BodyThatFits }
    ensures invariant_no_truth { values_rows.InvariantNoTruth }
    ensures condition_no_truth { values_rows.ConditionNoTruth }
    ensures assertion_no_truth { values_rows.AssertionNoTruth }
    ensures arm_no_truth { values_rows.ArmNoTruth }
    ensures truths { values_rows.Truths }
    ensures assigned_another_type { values_rows.AssignedAnotherType }
    ensures initial_another_type { values_rows.InitialAnotherType }
    ensures returned_another_type { values_rows.ReturnedAnotherType }
    ensures new_another_type { values_rows.NewAnotherType }
    ensures values_that_fit { values_rows.ValuesThatFit }
{}
