ghost use Rattle.std.specs.Prelude.{◌≡◌, IfOk};
ghost use Rattle.std.specs.Option.{option_copied};
ghost use Rattle.widget_model.specs.Rows.{new_row, first_values, default_at, attr_of, IsIndex, column_rule_of, row_rule_of, binding_of, with_film};
ghost use Rattle.row_store.specs.Changes.{changed_by, CanBeMade};

use crate::change::Change;
use crate::slots::{attr_slot, event_slot};
use kind_core::{Attr, Cell, EventKind, Kind, Name, Value, default_of};
use std::alloc::AllocError;
use std::marker::Model;
use std::mem;
use vscreen_core::Film;

/// One widget of a client, which contracts see as the record `Row` of widget_model. See docs/MACHINE.md,
/// "Widgets".
#[derive(Drop)]
pub struct Row {
    client: u32,
    name: Name,
    kind: Kind,
    values: [Option<Value>; 13],
    attached: Option<(Name, Cell)>,
    column_rules: [(u32, u32); 16],
    row_rules: [(u32, u32); 16],
    link: Option<Name>,
    bindings: [Option<Name>; 7],
    film: Option<Film>,
}

impl Model for Row {
    ghost use Rattle.widget_model.specs.Rows.{Row as Seen};

    ghost Value = { Seen };

    ghost view = { λ r. record { client = r.client; name = r.name; kind = r.kind; values = r.values; attached = r.attached; column_rules = r.column_rules; row_rules = r.row_rules; link = r.link; bindings = r.bindings; film = r.film } };
}

impl Clone for Row {
    ghost is_clone = { λ row copy. copy ≡ row };

    fn clone(&self) -> Result<Row, AllocError> {
        Ok(Row {
            client: self.client,
            name: self.name,
            kind: self.kind,
            values: same_values(&self.values),
            attached: self.attached,
            column_rules: self.column_rules,
            row_rules: self.row_rules,
            link: self.link,
            bindings: same_tags(&self.bindings),
            film: copy_film(&self.film)?,
        })
    }
}

/// The same values.
fn same_values(values: &[Option<Value>; 13]) -> [Option<Value>; 13]
    ensures { result ≡ values.now }
{
    let mut copy = [None; 13];
    copy.copy_from_slice(values);
    copy
}

/// The same tags.
fn same_tags(tags: &[Option<Name>; 7]) -> [Option<Name>; 7]
    ensures { result ≡ tags.now }
{
    let mut copy = [None; 7];
    copy.copy_from_slice(tags);
    copy
}

/// Another film that equals this one, where there is one.
fn copy_film(film: &Option<Film>) -> Result<Option<Film>, AllocError>
    ensures { IfOk result (λ copy. copy ≡ film.now) }
{
    match film {
        Some(film) => match film.copy() {
            Ok(copy) => Ok(Some(copy)),
            Err(_) => Err(AllocError),
        },
        None => Ok(None),
    }
}

/// The default of the kind's attribute.
#[tactic(auto, unfolding(widget_model::specs::Rows::default_at))]
fn default_at(kind: Kind, attr: Attr) -> Option<Value>
    ensures { result ≡ default_at kind attr }
{
    default_of(kind, attr)
}

/// The values of a new row of the kind.
#[tactic(auto, unfolding(widget_model::specs::Rows::first_values))]
fn first_values(kind: Kind) -> [Option<Value>; 13]
    ensures { result ≡ first_values kind }
{
    [
        default_at(kind, Attr::X),
        default_at(kind, Attr::Y),
        default_at(kind, Attr::W),
        default_at(kind, Attr::H),
        default_at(kind, Attr::Title),
        default_at(kind, Attr::Text),
        default_at(kind, Attr::Caret),
        default_at(kind, Attr::Cols),
        default_at(kind, Attr::Value),
        default_at(kind, Attr::Max),
        default_at(kind, Attr::Real),
        default_at(kind, Attr::View),
        default_at(kind, Attr::Vert),
    ]
}

impl Row {
    /// The row of a new widget, with the defaults of its kind. It hangs in none, and has no rules, no link, no
    /// bindings and no film.
    #[tactic(auto, unfolding(widget_model::specs::Rows::new_row))]
    pub fn new(client: u32, name: Name, kind: Kind) -> Row
        ensures { result ≡ new_row client name kind }
    {
        Row {
            client,
            name,
            kind,
            values: first_values(kind),
            attached: None,
            column_rules: [(0, 0); 16],
            row_rules: [(0, 0); 16],
            link: None,
            bindings: [None; 7],
            film: None,
        }
    }

    /// The client whose widget it is.
    pub fn client(&self) -> u32
        ensures { result ≡ self.now.client }
    {
        self.client
    }

    /// The name that the client gave it.
    pub fn name(&self) -> Name
        ensures { result ≡ self.now.name }
    {
        self.name
    }

    /// The kind of the widget.
    pub fn kind(&self) -> Kind
        ensures { result ≡ self.now.kind }
    {
        self.kind
    }

    /// The value of the attribute, None where the row has none.
    pub fn attr(&self, attr: Attr) -> Option<Value>
        ensures { result ≡ attr_of self.now attr }
    {
        self.values[attr_slot(attr)]
    }

    /// The name of the widget in which it hangs, and the cell there; None exactly where it hangs in none.
    pub fn attached(&self) -> Option<(Name, Cell)>
        ensures { result ≡ self.now.attached }
    {
        self.attached
    }

    /// The size in pixels and the weight of the column, 1 to 16; (0, 0) where none was given.
    pub fn column_rule(&self, index: u32) -> (u32, u32)
        requires { IsIndex index }
        ensures { result ≡ column_rule_of self.now index }
    {
        self.column_rules[index as usize - 1]
    }

    /// The size in pixels and the weight of the row, 1 to 16; (0, 0) where none was given.
    pub fn row_rule(&self, index: u32) -> (u32, u32)
        requires { IsIndex index }
        ensures { result ≡ row_rule_of self.now index }
    {
        self.row_rules[index as usize - 1]
    }

    /// The name of the Variable that it is linked to, None exactly where it isn't linked.
    pub fn link(&self) -> Option<Name>
        ensures { result ≡ self.now.link }
    {
        self.link
    }

    /// The tag that the event is bound to, None exactly where it isn't bound.
    pub fn binding(&self, event: EventKind) -> Option<Name>
        ensures { result ≡ binding_of self.now event }
    {
        self.bindings[event_slot(event)]
    }

    /// The film that it has, lent; None exactly where it has none.
    pub fn film(&self) -> Option<&Film>
        ensures { option_copied result ≡ self.now.film }
    {
        self.film.as_ref()
    }

    /// Puts that film in, or none, and hands out the one that it had. Nothing else of the row changes, and no byte is
    /// copied.
    pub fn swap_film(&mut self, film: Option<Film>) -> Option<Film>
        ensures was { result ≡ self.old.film }
        ensures film { self.new ≡ with_film film self.old }
    {
        mem::replace(&mut self.film, film)
    }

    /// Makes the change, and changes nothing else of the row. A rule's column or row is 1 to 16.
    pub fn change(&mut self, change: Change)
        requires { CanBeMade change }
        ensures { self.new ≡ changed_by change self.old }
    {
        match change {
            Change::Attribute { attr, value } => self.values[attr_slot(attr)] = Some(value),
            Change::ColumnRule { index, rule } => self.column_rules[index as usize - 1] = rule,
            Change::RowRule { index, rule } => self.row_rules[index as usize - 1] = rule,
            Change::Link { variable } => self.link = variable,
            Change::Binding { event, tag } => self.bindings[event_slot(event)] = tag,
            Change::Attached { attached } => self.attached = attached,
        }
    }
}
