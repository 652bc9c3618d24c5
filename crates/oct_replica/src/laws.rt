//! What holds of any replicas, whatever was handed to them, lost, repeated, reordered or cut.

ghost use Rattle.oct_replica.specs.Complete.{GamesAreShown, BlocksAreShown, ClaimsAreShown, NotesAreShown, ForksAreShown, AuthorsAreShown};
ghost use Rattle.oct_replica.specs.Headline.{UnionIsPrinted, SpelledIsPrinted, SameIsPrinted, ShownValuesAreNimValues, NimValuesAreTheSequence, RefutedAtFirstWrong, RefutedAtFirstBreak, ProvedPeriodsHold};
ghost use Rattle.oct_replica.specs.Shown.{GameLinesAreSo, LinesAreSo};
ghost use Rattle.oct_replica.specs.World.{DeliveriesAreTaken, EachIsIssued, NoForks, EqualClocksEqualSets, EqualClocksEqualCatalogues, AbroadIsSaved};
ghost use Rattle.oct_replica.specs.Settled.{SettledBlocksStay, SettledClaimsStay, BlockLinesStay, ClaimLinesStay};

/// For every list of byte strings handed to a replica, its catalogue is the one defined for the union of their operations,
/// so replicas that took the same operations in any order, batching and repetition print identical bytes; there every value
/// shown is the game's mex value, every refutation names the first wrong place, and every proved period holds for all heaps.
pub fn same_operations_same_bytes()
    ensures union { UnionIsPrinted }
    ensures spelled { SpelledIsPrinted }
    ensures same { SameIsPrinted }
    ensures values { ShownValuesAreNimValues }
    ensures mex { NimValuesAreTheSequence }
    ensures blocks { RefutedAtFirstWrong }
    ensures claims { RefutedAtFirstBreak }
    ensures periods { ProvedPeriodsHold }
{}

/// Each line of a catalogue tells what is so. Of each game: its known length; nim-values, each of the heap that it stands for;
/// blocks of the set, of which a proved one is right, and a refuted one is wrong first at the place that the line names, with
/// the value claimed there and the nim-value; and claims of the set, of which a proved one holds for every heap, and a
/// refuted one breaks first at the heap that the line names. Then the notes that nothing removes, the forks and the authors.
pub fn lines_tell_what_is_so()
    ensures games { GameLinesAreSo }
    ensures all { LinesAreSo }
{}

/// A catalogue leaves nothing out. Each game of which the set has a block or a claim has its known length, and each nim-value
/// up to it. Each block has its line, which says pending exactly where the block starts beyond the known length and the known
/// nim-values prove no claim of its game in the set. Each claim has its line, which says pending exactly where they neither
/// prove nor break it. So has each note that nothing removes, each dot with two contents or more, and each author.
pub fn lines_leave_nothing_out()
    ensures games { GamesAreShown }
    ensures blocks { BlocksAreShown }
    ensures claims { ClaimsAreShown }
    ensures notes { NotesAreShown }
    ensures forks { ForksAreShown }
    ensures authors { AuthorsAreShown }
{}

/// A delivery in the world of replicas leaves what a replica has that took in the same operations.
pub fn deliveries_are_taken()
    ensures { DeliveriesAreTaken }
{}

/// Each operation in a set, a saved set or a packet was issued by the author that it names.
pub fn each_is_issued()
    ensures { EachIsIssued }
{}

/// No dot has two contents anywhere.
pub fn no_forks()
    ensures { NoForks }
{}

/// Replicas whose clocks are equal, and that hold nothing beyond their clocks, hold the same set, and print the same
/// bytes.
pub fn equal_clocks_equal_sets()
    ensures sets { EqualClocksEqualSets }
    ensures catalogues { EqualClocksEqualCatalogues }
{}

/// An operation in a packet, or in a set or a saved set of another replica, is in its author's saved set.
pub fn abroad_is_saved()
    ensures { AbroadIsSaved }
{}

/// With more operations, each block and each period claim that is proved stays proved, and each that is refuted stays
/// refuted at the same place. Its very line stays in the catalogue.
pub fn settled_stays()
    ensures blocks { SettledBlocksStay }
    ensures claims { SettledClaimsStay }
    ensures block_lines { BlockLinesStay }
    ensures claim_lines { ClaimLinesStay }
{}
