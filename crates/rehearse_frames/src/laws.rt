//! Laws of what frames still read. A call of one does nothing: its contract is the law.

ghost use Rattle.rehearse_frames.specs.Laws.{AlikeFramesAreStretches, AskedAlike, FramesGoAlike, MovesAreStretches, MovesComeFirst, OutcomesComeFirst, StretchesJoin};
ghost use Rattle.rehearse_frames.specs.Laws.{AsksAbove, KeysHoldBelow, LowestMakeNoDifference, MovesStayAbove, NeitherReturns, OutcomesStayAbove};
ghost use Rattle.rehearse_frames.specs.Laws.{KeysOfAlikeFrames, KeysOfAnswers, KeysOfAsking, KeysOfEnds, KeysOfMoments, KeysOfMoves, KeysOfOutcomes, KeysOfSteps, LoopsGoOn, MomentsGoAlike, MoreKeysAreEnough};

/// What frames still read and write is what their next move reads and writes, and then what is to come
/// after it, whatever outcomes are left. If a device command asks, it is what its outcome writes, and then
/// what is to come after that.
#[tactic(auto, using(crate::proofs::MoveAccessLemmas::moves_come_first, crate::proofs::MoveAccessLemmas::outcomes_come_first))]
pub fn moves_come_first()
    ensures moves { MovesComeFirst }
    ensures outcomes { OutcomesComeFirst }
{}

/// From two states that agree on what frames read before they write it, the frames go on alike as far
/// as the bounds allow: the word is a run in both cases or in neither, and the runs end alike, with the same
/// values of the variables that are wanted, after the same further device commands and as many steps. So it
/// is where a device command asks with the same words.
#[tactic(auto, using(crate::proofs::FramesAlike::frames_go_alike, crate::proofs::FramesAlike::asked_alike))]
pub fn frames_go_alike()
    ensures frames { FramesGoAlike }
    ensures asked { AskedAlike }
{}

/// Keys that are enough for what is to come, whatever outcomes are left: at an end, in front of a move,
/// where a device command asks, and at a moment at which one asks. Further keys do no harm, and frames
/// that make the same of every answer need the same keys.
pub fn keys_to_come()
    ensures ends { KeysOfEnds }
    ensures moves { KeysOfMoves }
    ensures answers { KeysOfAnswers }
    ensures asking { KeysOfAsking }
    ensures moments { KeysOfMoments }
    ensures more { MoreKeysAreEnough }
    ensures alike { KeysOfAlikeFrames }
{}

/// Keys that are enough before a step of the machine, if what is reported of the step covers what its move
/// reads and writes; and at a device command that asks, from what is enough after each of its outcomes.
pub fn keys_of_steps()
    ensures steps { KeysOfSteps }
    ensures outcomes { KeysOfOutcomes }
{}

/// Two moments at one place, at which the same device command asks, and which agree on keys that are
/// enough at the first one: the same is to come at both, as far as the bounds allow.
pub fn moments_go_alike()
    ensures { MomentsGoAlike }
{}

/// Moves are a stretch of a run, which goes the same way however many steps were begun before it, as far as
/// the bound on steps allows; so are frames that are taken for others which make the same of every answer,
/// and one stretch after another. A stretch that comes back to the same frames and the same state, only some
/// steps later, does so again, one round after another: the same is to come after each round, and all rounds
/// together read and write what one of them does.
#[tactic(auto, using(crate::proofs::LoopLemmas::moves_are_stretches, crate::proofs::LoopLemmas::alike_frames_are_stretches, crate::proofs::LoopLemmas::stretches_in_turn, crate::proofs::LoopLemmas::loops_go_on))]
pub fn loops_go_on()
    ensures moves { MovesAreStretches }
    ensures alike { AlikeFramesAreStretches }
    ensures join { StretchesJoin }
    ensures rounds { LoopsGoOn }
{}

/// A run without the lowest frames: a move that leaves these alone, and goes on above them, is the same
/// without them, and so is an outcome; the device command that asks is found there too. If nothing comes
/// back to the lowest frames, the same is to come with them as without them, and the same keys are enough.
pub fn lowest_frames()
    ensures moves { MovesStayAbove }
    ensures outcomes { OutcomesStayAbove }
    ensures asks { AsksAbove }
    ensures same { LowestMakeNoDifference }
    ensures neither { NeitherReturns }
    ensures keys { KeysHoldBelow }
{}
