//! What the definitions say whatever the words are. These functions have nothing to do when they run: each one's
//! contract is a law.

ghost use Rattle.std.specs.Prelude.{◌≡◌, ◌<◌, ◌^◌, Err, Ok, true, ℕ, ℤ};
ghost use Rattle.armcaps_insn.specs.Decoded.{decoded};
ghost use Rattle.armcaps_insn.specs.Encodings.{class_of};
ghost use Rattle.armcaps_insn.specs.Moved.{IsMove, IsMoved, StaysOrMoves, corrected, is_kept};
ghost use Rattle.armcaps_insn.specs.declared.instruction_class.Class.TheVariants as class;
ghost use Rattle.armcaps_insn.specs.declared.correction.FixRefused.TheVariants as refused;

/// Class, rest and offset determine the word.
pub fn decoding_is_one_to_one()
    ensures { (one other : ℕ) → one < 2 ^ 32 → other < 2 ^ 32 → decoded one ≡ decoded other → one ≡ other }
{}

/// At most one word keeps class, rest and target where a word moves, and where the offset that is needed is out of
/// range there is none.
pub fn moving_has_one_answer()
    ensures one { (word from to one other : ℕ) → IsMoved word from one to → IsMoved word from other to → one ≡ other }
    ensures none { (word from to low high new : ℕ) (offset : ℤ) → IsMove from to low high
        → corrected word from to low high ≡ Err (refused.Range offset) → ¬ IsMoved word from new to }
{}

/// What a word becomes that moves. One that takes no address, or jumps within its sequence, stays as it is. One whose
/// address isn't followed does not stay: it is refused. Any other that can move keeps class, other bits and target.
pub fn words_stay_or_move()
    ensures stays { (word from to low high : ℕ) → is_kept word from low high ≡ true
        → corrected word from to low high ≡ Ok word }
    ensures literal { (word from to low high : ℕ) → class_of word ≡ class.Literal
        → corrected word from to low high ≡ Err (refused.Literal word) }
    ensures moves { (word from to low high new : ℕ) → IsMove from to low high → word < 2 ^ 32
        → corrected word from to low high ≡ Ok new → StaysOrMoves word from new to low high }
{}
