//! What holds of all texts of deltas.

ghost use Rattle.std.specs.Prelude.{◌≡◌, ◌↔◌, ◌++◌, List, [], Some};
ghost use Rattle.std.specs.List.{All};
ghost use Rattle.std.specs.Ordering.{nat_cmp};
ghost use Rattle.std.specs.Cmp.Lexicographic.{slice_cmp};
ghost use Rattle.oct_code.specs.declared.limits.TheConstants.{LIMIT};
ghost use Rattle.oct_delta.specs.declared.encoding.TheConstants.{MAX_OP_SIZE};
ghost use Rattle.oct_ops.specs.Body.{Operation};
ghost use Rattle.oct_ops.specs.Operations.{Operations};
ghost use Rattle.oct_ops.specs.Order.{op_cmp};
ghost use Rattle.oct_join.specs.Clock.{Clock, IsClock};
ghost use Rattle.oct_delta.specs.Bytes.{IsBytes};
ghost use Rattle.oct_delta.specs.Text.{Bytes, op_bytes};
ghost use Rattle.oct_delta.specs.Delta.{Format, Fits, IsOpList, IsDelta, IsDeltaText, delta_bytes, encoded};
ghost use Rattle.oct_delta.specs.Decoding.{read_delta};
ghost use Rattle.oct_delta.specs.Spelling.{SpellTogether, Spells};
ghost use Rattle.oct_delta.specs.Taken.{operations_of, operations_of_all};
ghost use Rattle.oct_delta.specs.Clocks.{IsClockText, clock_bytes, read_clock};

/// A text is that of one list.
pub fn a_text_has_one_list()
    ensures { (bytes : Bytes) (a b : List Operation) → IsDeltaText bytes a → IsDeltaText bytes b → a ≡ b }
{}

/// In each format a list whose length is a `u32`, and whose operations are valid and keep the limit, has one text.
pub fn a_list_has_one_text()
    ensures { (format : Format) (bytes : Bytes) (ops : List Operation) → IsOpList format.limit ops → IsDelta format bytes ops ↔ (bytes ≡ delta_bytes format ops) }
{}

/// No text is a proper prefix of another.
pub fn no_text_begins_another()
    ensures { (bytes more : Bytes) (a b : List Operation) → IsDeltaText bytes a → IsDeltaText (bytes ++ more) b → more ≡ [] }
{}

/// What is written is a text of its list.
pub fn what_is_written_is_a_text()
    ensures { (ops : List Operation) → IsOpList LIMIT ops → IsDeltaText (encoded ops) ops }
{}

/// Reading a text gives its list, and reading anything else gives none.
pub fn texts_are_read()
    ensures { (bytes : Bytes) (ops : List Operation) → IsBytes bytes → (read_delta bytes ≡ Some ops) ↔ IsDeltaText bytes ops }
{}

/// A byte string spells one set: the one of whose list it is a text, and the empty one where it is no text. Several
/// together spell their union, and no other set. These are what `operations_of` and `operations_of_all` compute.
pub fn byte_strings_spell_one_set()
    ensures one { (bytes : Bytes) (ops : Operations) → IsBytes bytes → Spells bytes ops ↔ (ops ≡ operations_of bytes) }
    ensures all { (strings : List Bytes) (ops : Operations) → All IsBytes strings → SpellTogether strings ops ↔ (ops ≡ operations_of_all strings) }
{}

/// The operation order is the order of the texts by their bytes.
pub fn texts_are_in_operation_order()
    ensures { (a b : Operation) → Fits LIMIT a → Fits LIMIT b → slice_cmp nat_cmp (op_bytes a) (op_bytes b) ≡ op_cmp a b }
{}

/// Reading the text of a clock gives the clock, and reading anything else gives none. So a text is that of one clock.
pub fn clock_texts_are_read()
    ensures { (bytes : Bytes) (t : Clock) → IsBytes bytes → (read_clock bytes ≡ Some t) ↔ IsClockText bytes t }
{}

/// A clock has one text.
pub fn a_clock_has_one_text()
    ensures { (bytes : Bytes) (t : Clock) → IsClock t → IsClockText bytes t ↔ (bytes ≡ clock_bytes t) }
{}

/// The longest text of an operation has 8,203 bytes.
pub fn the_longest_operation_has_this_size()
    ensures { MAX_OP_SIZE ≡ 8203 }
{}
