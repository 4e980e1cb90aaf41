//! Laws of the language. A call of one does nothing: its contract is the law.

ghost use Rattle.hushlang.specs.Laws.{SpelledOnce, EachSpelled, PiecesJoined, TokensInOrder};
ghost use Rattle.hushlang.specs.Laws.{EachTreeIsRead, WhatIsReadIsATree, OneTree, OneTreeOfText};
ghost use Rattle.hushlang.specs.Laws.{BlocksHoldCommands, BlocksAreClosed, EachProducedBlockIsDerived, EachDerivedBlockIsProduced};
ghost use Rattle.hushlang.specs.Laws.{EachProducedScriptIsDerived, EachDerivedScriptIsProduced};
ghost use Rattle.hushlang.specs.Laws.{RefusalsArePlaced, FaultsAreAnswered};
ghost use Rattle.hushlang.specs.Laws.{PrefixIsViable, FewTokensComplete, EachTextIsBlocked, OneBlockedPlace};
ghost use Rattle.hushlang.specs.TreeLaws.{TreesAreRead, RefusedTexts, TreesAreProper};

/// A text spells at most one row of tokens: the computed one.
pub fn spelled_once()
    ensures { SpelledOnce }
{}

/// Each text spells the tokens that are computed.
pub fn each_spelled()
    ensures { EachSpelled }
{}

/// Neighbouring bytes of a word are in one piece, and no piece of bytes is empty.
pub fn pieces_joined()
    ensures { PiecesJoined }
{}

/// Tokens follow one another within the text, and so does what refuses it after them.
pub fn tokens_in_order()
    ensures { TokensInOrder }
{}

/// Tokens have at most one tree: the computed one.
pub fn one_tree()
    ensures read { EachTreeIsRead }
    ensures derived { WhatIsReadIsATree }
    ensures one { OneTree }
{}

/// A text has at most one tree.
pub fn one_tree_of_text()
    ensures { OneTreeOfText }
{}

/// The tree by which a text is executed is the one that the language gives it.
pub fn trees_are_read()
    ensures read { TreesAreRead }
    ensures refused { RefusedTexts }
    ensures proper { TreesAreProper }
{}

/// Each condition and each body holds a command, and ends with a separator or a compound command.
/// They are the blocks that the two productions of a block give. Each `if` has a condition.
pub fn blocks()
    ensures hold_commands { BlocksHoldCommands }
    ensures are_closed { BlocksAreClosed }
    ensures are_derived { EachProducedBlockIsDerived }
    ensures are_produced { EachDerivedBlockIsProduced }
{}

/// Scripts are the ones that the production of a script gives.
pub fn scripts()
    ensures are_derived { EachProducedScriptIsDerived }
    ensures are_produced { EachDerivedScriptIsProduced }
{}

/// A refusal is at the first token with which no script can go on.
pub fn places()
    ensures placed { RefusalsArePlaced }
    ensures faults { FaultsAreAnswered }
    ensures each { EachTextIsBlocked }
    ensures one { OneBlockedPlace }
{}

/// If tokens start a script, so does each prefix of them.
pub fn prefix_is_viable()
    ensures { PrefixIsViable }
{}

/// The words `true` and `in`, separators and reserved words can complete each start of a script.
pub fn few_tokens_complete()
    ensures { FewTokensComplete }
{}
