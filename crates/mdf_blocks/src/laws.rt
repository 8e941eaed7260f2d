//! Laws of the definitions: each is the contract of a function that does nothing.
ghost use Rattle.mdf_blocks.specs.Formulas.{SameFormulas};
ghost use Rattle.mdf_blocks.specs.Laid.{LaidAreRead, LinksAreRead};
ghost use Rattle.mdf_blocks.specs.Laws.{FillAligns, ReadBehind, ReadOneWay, StaysRead};
ghost use Rattle.mdf_blocks.specs.Laws.{WrittenIsRead};
ghost use Rattle.mdf_blocks.specs.OneTelling.{TellsOneThing};
ghost use Rattle.mdf_blocks.specs.Patching.{PatchIsRead, PatchKeeps};
ghost use Rattle.mdf_blocks.specs.Saying.{EachSays};
ghost use Rattle.mdf_blocks.specs.Staying.{StaysTold, WrittenTextIsTold};
ghost use Rattle.mdf_blocks.specs.Telling.{WrittenIsTold};

/// What is read of a block that was written is what it was written of, wherever it stands.
pub fn written_is_read()
    ensures { WrittenIsRead }
{}

/// Bytes are read as a block in at most one way.
pub fn read_one_way()
    ensures { ReadOneWay }
{}

/// A block is still read where its own bytes stay.
pub fn stays_read()
    ensures { StaysRead }
{}

/// A block is still read behind bytes that are appended.
pub fn read_behind()
    ensures { ReadBehind }
{}

/// Behind the fill of a block the next one may begin.
pub fn fill_aligns()
    ensures { FillAligns }
{}

/// By the places of its fields each block says what it was written of.
pub fn each_says()
    ensures { EachSays }
{}

/// What was told is told again where the blocks that it was read of stay.
pub fn stays_told()
    ensures { StaysTold }
{}

/// MDF's rule of a conversion says what the conversion says.
pub fn same_formulas()
    ensures { SameFormulas }
{}

/// A text that was written is told, to its end if it has no byte of 0.
pub fn written_text_is_told()
    ensures { WrittenTextIsTold }
{}

/// A file tells one thing, whoever follows its links.
pub fn tells_one_thing()
    ensures { TellsOneThing }
{}

/// Blocks that were written tell what they were written of, if their links lead to it.
pub fn written_is_told()
    ensures { WrittenIsTold }
{}

/// Blocks that are written one behind another are read where each begins.
pub fn laid_are_read()
    ensures { LaidAreRead }
{}

/// If each link is the place of one of them, or 0, it leads to a block within the file.
pub fn links_are_read()
    ensures { LinksAreRead }
{}

/// A block that is written over others is read.
pub fn patch_is_read()
    ensures { PatchIsRead }
{}

/// Each block that isn't written over is still read.
pub fn patch_keeps()
    ensures { PatchKeeps }
{}
