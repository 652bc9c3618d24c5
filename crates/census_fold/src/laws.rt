//! What holds of every input that is folded, and of the digest of every file.

ghost use Rattle.census_fold.specs.Digests.{DigestIsOfSet, TextIsOfOneSet};
ghost use Rattle.census_fold.specs.Folded.{FoldedIsPrinted, FoldedIsSpelled, FoldedIsUnion, RefusedIsNoDelta};

use oct_delta::laws::{a_text_has_one_list, texts_are_read, what_is_written_is_a_text};

/// What `fold_lines` writes is what a replica prints to which the byte strings of the lines were handed, the catalogue of the
/// union of their operations; so it is the catalogue of whichever set has exactly the operations that they spell. A filled line
/// is counted exactly where it is not the hexadecimal text of a delta.
pub fn lines_fold_to_their_union()
    ensures printed { FoldedIsPrinted }
    ensures union { FoldedIsUnion }
    ensures spelled { FoldedIsSpelled }
    ensures refused { RefusedIsNoDelta }
{}

/// The digest of a file, be it a state of whatever author or a delta, is that of the one text of its operations. So files of the
/// same operations have the same digest. And that text has one set: two files with one digest hold the same operations, unless
/// their texts are two with one SHA-256.
pub fn digests_are_of_sets()
    ensures digest { DigestIsOfSet }
    ensures text { TextIsOfOneSet }
{
    texts_are_read();
    a_text_has_one_list();
    what_is_written_is_a_text();
}
