//! Parts of a select, each with the column that it names.
use hippo_model::Ref;
use hippo_stmt_ast::{RawColumn, RawOut};
use hippo_values::Sequence;
use std::marker::Model;

/// A written part, with the column that it names.
#[derive(Drop)]
pub struct Found<'a, W> {
    pub(crate) written: &'a W,
    pub(crate) column: Ref,
}

impl<'a, W> Model for Found<'a, W> {
    ghost use Rattle.hippo_model.specs.declared.query.Ref.{Ref as Reference};

    ghost Value = { W × Reference };

    ghost view = { λ found. (found.written.now, found.column) };
}

/// A written column, with the column that it names.
pub type FoundColumn<'a> = Found<'a, RawColumn>;

pub type FoundColumns<'a> = Sequence<FoundColumn<'a>>;

/// A member of a grouped select's list, with the column that it shows or whose least or greatest
/// value it shows.
pub type FoundOut<'a> = Found<'a, RawOut>;

pub type FoundOuts<'a> = Sequence<FoundOut<'a>>;
