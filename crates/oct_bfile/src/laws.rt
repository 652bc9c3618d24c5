//! What holds of b-files.

ghost use Rattle.oct_bfile.specs.BfileLaws.{WrittenReadsBack};

/// The b-file of one value or more, at most `LIMIT` of them, each below 2^32, reads back as these values from number 0 on.
pub fn written_bfiles_read_back()
    ensures { WrittenReadsBack }
{}
