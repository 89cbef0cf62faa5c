//! The names that statements may use, each kind in its own namespace.

use crate::indexed_table::IndexedTable;
use hippo_model::ItemKind;
use hippo_values::Name;
use indexmap::{IndexMap, IndexSet};
use std::marker::Model;

/// The tables, purposes, recipients and items, each in the order of their creation.
#[derive(Drop)]
pub struct NameSpaces {
    pub(crate) tables: IndexMap<Name, IndexedTable>,
    pub(crate) purposes: IndexSet<Name>,
    pub(crate) recipients: IndexSet<Name>,
    pub(crate) items: IndexMap<Name, ItemKind>,
}

impl Model for NameSpaces {
    ghost use Rattle.hippo_typing_catalog.specs.Catalogs.{KnownNames};

    ghost Value = { KnownNames };

    ghost view = { λ spaces. record {
      tables = spaces.tables.entries;
      purposes = spaces.purposes.keys;
      recipients = spaces.recipients.keys;
      items = spaces.items.entries;
    } };
}
