// The numbers of a line, of either width.
ghost use Rattle.std.specs.Prelude.{◌≡◌, ℕ, ◌<◌, ◌∷◌, ◌++◌, decimal, Decides};
ghost use Rattle.std.specs.List.{flat_map, AllByRecursion};
ghost use Rattle.lines.specs.Texts.{text_of, cut};

use super::text::Text;

// A number of an archive line, or of a statement line.
pub(crate) trait Number: Copy {
    ghost value: { Self → ℕ };

    fn value(self) -> u64
        ensures { result ≡ value self };
}

impl Number for u32 {
    ghost value = { λ n. n };

    fn value(self) -> u64 {
        u64::from(self)
    }
}

impl Number for u64 {
    ghost value = { λ n. n };

    fn value(self) -> u64 {
        self
    }
}

// Appends a blank and a number.
#[tactic(auto, using(crate::proofs::Made::one_before))]
fn push_field(text: &mut Text, n: u64)
    ensures { text_of text.new ≡ cut (text_of text.old ++ (32 ∷ decimal n)) }
{
    text.push(b' ');
    text.push_number(n);
}

// Appends each number after a blank.
pub(crate) fn push_numbers<N: Number>(text: &mut Text, numbers: &[N])
    ensures { text_of text.new ≡ cut (text_of text.old ++ flat_map (λ n. 32 ∷ decimal (N.value n)) numbers.now) }
{
    for n in numbers {
        push_field(text, n.value());
    }
}
