//! Laws of lines, fields and numbers, and of the output for lines, for every machine. These
//! functions compute nothing: their clauses are the statements.

ghost use Rattle.std.specs.Prelude.{◌≡◌, ◌↔◌, ℕ, ◌^◌, ◌<◌, ℤ, ◌∷◌, ◌++◌, List, length, Some, Ok, true};
ghost use Rattle.std.specs.Fmt.{signed_decimal};
ghost use Rattle.std.specs.Int.RustNames.{unsigned_abs};
ghost use Rattle.std.specs.List.{join_with_byte, list_all};
ghost use Rattle.pf_text.specs.Driver.{lines_output, is_plain, is_skipped};
ghost use Rattle.pf_text.specs.Fields.{fields_of};
ghost use Rattle.pf_text.specs.Laws.{is_field, unterminated_line, output_then, output_a_line_later};
ghost use Rattle.pf_text.specs.Lines.{lines_of, is_line, AreLines};
ghost use Rattle.pf_text.specs.Numbers.{whole_of};

use crate::driver::Machine;
use crate::lines::{LINE_CAPACITY, MAX_LINE};

/// The output for lines stands, whatever follows them; that for what follows begins where they
/// ended.
pub fn outputs_follow_one_another<L, M: Machine<L>>()
    ensures { (number : ℕ) (state : M) (lines more : List (List ℕ))
        → lines_output M.rules number state (lines ++ more)
        ≡ output_then (lines_output M.rules number state lines)
        (λ number state. lines_output M.rules number state more) }
{}

/// A line that is skipped changes the numbers of the lines behind it, and nothing else.
pub fn skipped_lines_change_only_numbers<L, M: Machine<L>>()
    ensures { (number : ℕ) (state : M) (line : List ℕ) (lines : List (List ℕ))
        → is_plain line ≡ true → is_skipped line ≡ true
        → lines_output M.rules number state (line ∷ lines)
        ≡ output_a_line_later (lines_output M.rules number state lines) }
{}

/// The lines of a text are the parts that end with a LF, and the rest behind the last LF where it
/// is not empty.
pub fn lines_are_the_parts_between_feeds()
    ensures { (text : List ℕ) (lines : List (List ℕ)) (rest : List ℕ) → AreLines text lines rest
        → is_line rest ≡ true
        → lines_of text ≡ lines ++ unterminated_line rest }
{}

/// The fields of a line are the parts, each of some bytes and without a space, that joined by
/// spaces are the line. Any other line has no fields.
pub fn fields_are_the_parts_between_spaces()
    ensures { (line : List ℕ) (fields : List (List ℕ)) → (fields_of line ≡ Ok fields)
        ↔ ((0 < length fields) × (list_all is_field fields ≡ true)
        × (line ≡ join_with_byte 32 fields)) }
{}

/// A field parses as a number exactly where it is the number's decimal text: what is printed is
/// read as itself, and nothing else is read as that number.
pub fn numbers_have_one_encoding()
    ensures { (field : List ℕ) (z : ℤ) → unsigned_abs z < 2 ^ 64
        → (whole_of field ≡ Some z) ↔ (field ≡ signed_decimal z) }
{}

/// The longest line that is valid, and the bytes that are taken of one that is too long.
pub fn named_limits()
    ensures line { MAX_LINE ≡ 4096 }
    ensures room { LINE_CAPACITY ≡ 4097 }
{}
