//! Images of blocks that wait for a region's journal.
ghost use Rattle.std.specs.Prelude.{◌≡◌, [], List, map};
ghost use Rattle.std.specs.List.{AllByRecursion};
ghost use Rattle.journal_defs.specs.Journal.{Before};
ghost use Rattle.jnl_record.specs.Values.{record_value};
ghost use Rattle.region_journals.specs.Logging.{MayBeAppended};
ghost use Rattle.region_epochs.specs.Kept.{image_records};

use before_image::Log;
use gvn_key::{Bytes, NoMemory};
use jnl_record::JnlRecord;
use std::alloc::Global;
use std::marker::Model;

/// Images as the records that are appended to a journal.
#[derive(Drop)]
pub(crate) struct Images {
    alloc: Global,
    records: Vec<JnlRecord>,
}

impl Model for Images {
    ghost use Rattle.std.specs.Prelude.{List};
    ghost use Rattle.journal_defs.specs.Journal.{Before};
    ghost use Rattle.region_epochs.specs.Logged.{images_of, AreImages};

    ghost Value = { List Before };

    ghost view = { images_of };

    ghost invariant = { AreImages };
}

impl Images {
    /// No image.
    pub(crate) fn new(alloc: Global) -> Self
        ensures { result ≡ [] }
    {
        Images {
            alloc,
            records: Vec::new(alloc),
        }
    }

    /// The records of the images, in order.
    pub(crate) fn records(&self) -> &[JnlRecord]
        ensures are { map record_value result.now ≡ image_records self.now }
        ensures may_be { AllByRecursion MayBeAppended result.now }
    {
        self.records.as_slice()
    }
}

impl Log for Images {
    ghost use Rattle.std.specs.Prelude.{List};

    ghost images = { λ l. l };

    fn log(&mut self, block: u32, image: &[u8]) -> Result<(), NoMemory> {
        let image = Bytes::of(self.alloc, image)?;
        self.records.push(JnlRecord::Pblk { block, image })?;
        Ok(())
    }
}
