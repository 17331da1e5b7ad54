//! What rows may name: units, policies and exchanges.

use crate::fault::{Fault, Wanted};
use crate::octets::push_octets;
use std::alloc::Global;
use std::collections::BTreeMap;

/// Units, policies and exchanges by their names.
#[derive(Drop)]
pub struct Book {
    pub alloc: Global,
    pub units: BTreeMap<String, Vec<u8>>,
    pub policies: BTreeMap<String, String>,
    pub exchanges: BTreeMap<String, String>,
}

impl Book {
    /// Nothing named.
    pub fn new(alloc: Global) -> Self {
        Book {
            alloc,
            units: BTreeMap::new(alloc),
            policies: BTreeMap::new(alloc),
            exchanges: BTreeMap::new(alloc),
        }
    }

    /// Takes a block that is no row: `unit`, `policy` or `exchange` and a name, and after that line what it names. A block
    /// that begins with `#` is a remark.
    pub fn take(&mut self, block: &str) -> Result<(), Fault> {
        let (head, body) = block.split_once('\n').unwrap_or((block, ""));
        let (kind, name) = head.split_once(' ').unwrap_or((head, ""));
        match kind {
            "unit" => self.take_unit(name.trim(), body),
            "policy" => self.take_policy(name.trim(), body.trim()),
            "exchange" => self.take_exchange(name.trim(), body),
            "" | "#" => Ok(()),
            _ => Err(Fault::Wanted(Wanted::Block)),
        }
    }

    fn take_unit(&mut self, name: &str, body: &str) -> Result<(), Fault> {
        let mut unit = Vec::new(self.alloc);
        for line in body.lines() {
            push_octets(self, line.trim(), &mut unit)?;
        }
        let name = String::from_str(self.alloc, name)?;
        self.units.insert(name, unit)?;
        Ok(())
    }

    fn take_policy(&mut self, name: &str, body: &str) -> Result<(), Fault> {
        let policy = format!(in self.alloc; "{body}\n")?;
        let name = String::from_str(self.alloc, name)?;
        self.policies.insert(name, policy)?;
        Ok(())
    }

    fn take_exchange(&mut self, name: &str, body: &str) -> Result<(), Fault> {
        let exchange = String::from_str(self.alloc, body)?;
        let name = String::from_str(self.alloc, name)?;
        self.exchanges.insert(name, exchange)?;
        Ok(())
    }
}
