//! Marks on the words of an image, one bit a word.

ghost use Rattle.std.specs.Prelude.{◌≡◌, ◌==◌, ◌||◌, ◌/◌, ◌<◌, ℕ, length};
ghost use Rattle.armcaps_pool.specs.Judging.{is_marked};

// Whether a word is marked.
pub(crate) fn is_marked(marks: &[u64], number: usize) -> bool
    requires { number / 64 < length marks.now }
    ensures { result ≡ is_marked marks.now number }
{
    marks[number / 64] >> (number % 64) & 1 == 1
}

// Marks a word. All other marks stay.
pub(crate) fn mark(marks: &mut [u64], number: usize)
    requires { number / 64 < length marks.old }
    ensures { (other : ℕ) → is_marked marks.new other ≡ (other == number || is_marked marks.old other) }
{
    marks[number / 64] |= 1 << (number % 64);
}
