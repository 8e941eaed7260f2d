//! The blocks of a MODULE are gathered until it ends: only then all names are known.
ghost use Rattle.std.specs.Prelude.{◌≡◌};
ghost use Rattle.a2l_entries.specs.Gives.{Gives};
ghost use Rattle.a2l_entries.specs.Said.{tokens_of};
ghost use Rattle.a2l.specs.ModuleSaid.{module_seen, no_parts, with_part};

use a2l_entries::{
    EntryFault, Left, MeasurementBlock, MethodBlock, TableBlock, default_order, method_of,
    ranges_of, table_of,
};
use a2l_text::Part;
use measured_values::ByteOrder;
use std::alloc::Global;

/// What the blocks of one MODULE say, as they stand in it (ASAM MCD-2 MC, MODULE).
#[derive(Drop)]
pub struct ModuleParts {
    /// The byte order of MOD_COMMON.
    pub order: Option<ByteOrder>,
    pub measurements: Vec<MeasurementBlock>,
    pub methods: Vec<MethodBlock>,
    pub tables: Vec<TableBlock>,
}

impl ModuleParts {
    /// Those of a MODULE of which nothing has been read.
    pub fn new(alloc: Global) -> ModuleParts
        ensures { module_seen result ≡ no_parts }
    {
        ModuleParts {
            order: None,
            measurements: Vec::new(alloc),
            methods: Vec::new(alloc),
            tables: Vec::new(alloc),
        }
    }

    /// Adds what a part says that is no measurement. A part that says nothing of how values are
    /// shown is passed over.
    #[tactic(auto, unfolding(crate::specs::ModuleSaid::with_part))]
    pub fn take(&mut self, alloc: Global, part: Part, words: Left<'_, '_>) -> Result<(), EntryFault>
        ensures { Gives (λ _. module_seen self.new) result
            (with_part part (tokens_of words.entry) (module_seen self.old)) }
    {
        match part {
            Part::Method => self.methods.push(method_of(alloc, words)?)?,
            Part::Table => self.tables.push(table_of(alloc, words)?)?,
            Part::Ranges => self.tables.push(ranges_of(alloc, words)?)?,
            Part::Defaults => self.order = self.order.or(default_order(words)?),
            Part::Measurement | Part::Instance | Part::Module => {}
            Part::Protocol | Part::Daq | Part::PlusDaq | Part::Timestamp => {}
        }
        Ok(())
    }
}
