// The batch, over any two key-row files.
ghost use Rattle.std.specs.Prelude.{◌≡◌, [], length, Some, IfSome, OnErr, OnOk};
ghost use Rattle.std.specs.HashMap.{IsUnchanged, get};
ghost use Rattle.std.specs.Option.{option_map};
ghost use Rattle.byte_strings.specs.Texts.{text};
ghost use Rattle.storage.specs.Pairs.{placed};
ghost use Rattle.settlement.specs.Delivery.{row_of};

use crate::delivery::{Delivery, KEY_LEN, Key, key_of, region_of};
use crate::files::BothFiles;
use crate::flaw::Flaw;
use crate::report::print_region;
use row_listing::list_rows;
use std::alloc::Global;
use std::collections::HashMap;
use std::collections::hash_map::Entry;
use std::io;
use std::io::BufRead;
use storage::{KeyRow, KeyRowFile};

// The deliveries taken in, and the files with their rows.
#[derive(Drop)]
pub(crate) struct Batch<T: KeyRowFile, C: KeyRowFile> {
    deliveries: HashMap<Key, Delivery>,
    files: BothFiles<T, C>,
}

impl<T: KeyRowFile, C: KeyRowFile> Batch<T, C> {
    pub(crate) fn new(heap: Global, table: T, chain: C) -> Batch<T, C>
        ensures deliveries { result.deliveries.entries ≡ [] }
        ensures table { result.files.table ≡ table }
        ensures chain { result.files.chain ≡ chain }
    {
        Batch {
            deliveries: HashMap::new(heap),
            files: BothFiles { table, chain },
        }
    }

    // Takes in a delivery a line, and says why a line is passed over.
    pub(crate) fn take_in_lines(
        &mut self,
        rt: &(impl AllocGlobal + Print),
        input: impl BufRead + Drop,
    ) -> anyhow::Result<()> {
        let heap = rt.alloc();
        for (i, line) in input.lines(heap).enumerate() {
            if let Err(flaw) = self.take_in(heap, line?.as_str()) {
                println!(rt; "line {}: {flaw}", i + 1)?;
            }
        }
        Ok(())
    }

    // Reads a line and keeps its delivery, with its row in both files, or leaves all as they were.
    fn take_in(&mut self, heap: Global, line: &str) -> Result<(), Flaw>
        ensures ok { OnOk result ((delivery : _)
            × (get ⟦<Key as PartialEq>⟧.eq self.new.deliveries delivery.key ≡ Some delivery)
            × (T.OrderedReading.pairs self.new.files.table ≡ placed (row_of delivery.region delivery.key) [] (T.OrderedReading.pairs self.old.files.table))
            × (C.OrderedReading.pairs self.new.files.chain ≡ placed (row_of delivery.region delivery.key) [] (C.OrderedReading.pairs self.old.files.chain))) }
        ensures table { OnErr result (T.OrderedReading.pairs self.new.files.table ≡ T.OrderedReading.pairs self.old.files.table) }
        ensures chain { OnErr result (C.OrderedReading.pairs self.new.files.chain ≡ C.OrderedReading.pairs self.old.files.chain) }
        ensures deliveries { OnErr result (IsUnchanged self.old.deliveries self.new.deliveries) }
    {
        let delivery = Delivery::read(heap, line)?;
        let Entry::Vacant(place) = self.deliveries.entry(delivery.key)? else {
            return Err(Flaw::GivenTwice);
        };
        self.files.add(&delivery.row())?;
        place.insert(delivery);
        Ok(())
    }

    // The list and the sum of each region by the table's rows, and, in words of its own, whether the chain gives the same.
    pub(crate) fn print(&self, rt: &(impl AllocGlobal + Print)) -> anyhow::Result<()> {
        let heap = rt.alloc();
        let by_table = list_rows(heap, &self.files.table)?;
        let by_chain = list_rows(heap, &self.files.chain)?;
        for rows in by_table.chunk_by(|a, b| region_of(a) == region_of(b)) {
            print_region(rt, self.listed(rt, rows)?.as_slice())?;
        }
        if by_table == by_chain {
            println!(rt; "both key-row files gave the same lists")?;
        } else {
            println!(rt; "THE KEY-ROW FILES DIFFER")?;
        }
        Ok(())
    }

    // The deliveries in the order of their rows.
    fn listed(
        &self,
        rt: &(impl AllocGlobal + Print),
        rows: &[KeyRow],
    ) -> io::Result<Vec<&Delivery>> {
        let mut listed = Vec::new(rt.alloc());
        for row in rows {
            match self.delivery_of(row) {
                Some(delivery) => listed.push(delivery)?,
                None => println!(rt; "A ROW HAS NO DELIVERY")?,
            }
        }
        Ok(listed)
    }

    // The delivery whose row it is.
    fn delivery_of(&self, row: &KeyRow) -> Option<&Delivery>
        ensures its_row { IfSome result (λ delivery. row_of delivery.now.region delivery.now.key ≡ text row.now) }
        ensures found { (delivery : _) → length delivery.key ≡ KEY_LEN → get ⟦<Key as PartialEq>⟧.eq self.now.deliveries delivery.key ≡ Some delivery → text row.now ≡ row_of delivery.region delivery.key → option_map (λ d. d.now) result ≡ Some delivery }
    {
        self.deliveries
            .get(&key_of(row)?)
            .filter(|delivery| delivery.row() == *row)
    }
}
