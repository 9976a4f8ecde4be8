ghost use Rattle.std.specs.Prelude.{ℕ, ◌≡◌, ◌<◌, ◌≤◌, nat_eq, Some, None, true, false, is_some, is_err, IfSome, OnOk, OnErr, IfOk, IfErr};
ghost use Rattle.std.specs.Option.{option_copied, option_map, option_map_or, option_and_then};
ghost use Rattle.std.specs.Result.{result_err};
ghost use Rattle.kind_core.specs.declared.kinds.Kind.TheVariants.{VScreen};
ghost use Rattle.kind_core.specs.Attributes.{domain_of, judged};
ghost use Rattle.vscreen_core.specs.FilmState.{IsFilm};
ghost use Rattle.widget_model.specs.Rows.{new_row, attr_of, with_attr, column_rule_of, with_column_rule, row_rule_of, with_row_rule, binding_of, with_binding, with_link, with_attached, with_film};
ghost use Rattle.widget_model.specs.Nodes.{id_named};
ghost use Rattle.widget_model.specs.Named.{rows_counted};
ghost use Rattle.widget_model.specs.Kinds.{any_kind};
ghost use Rattle.widget_model.specs.Widgets.{no_widgets, row_at, nodes, rows_of, IsLive, IsGrid, KeepsLive, edited, with_new, removed, joined, departed, place_at, with_place, row_kind, row_client};
ghost use Rattle.widget_model.specs.Clients.{is_joined};
ghost use Rattle.widget_model.specs.Links.{linked_id, name_at};
ghost use Rattle.widget_model.specs.Forest.{IsWidgets};
ghost use Rattle.widget_model.specs.Trees.{is_used};
ghost use Rattle.widget_model.specs.Planted.{takes_cell};
ghost use Rattle.widget_model.specs.Relatives.{parent_id, child_id, root_id};
ghost use Rattle.widget_model.specs.Rows.{IsIndex};
ghost use Rattle.tree_core.specs.Refusals.{add_refusal, AnswersRefusal, attach_answer};

use crate::add::{add_refusal, free_number, put_counted};
use crate::going_up::{parent_number, root_number};
use crate::hanging::{attach_refusal, child_number, hang, unhang};
use crate::id::Id;
use crate::links::{link_of, name_of};
use crate::refusal::{AddRefusal, AttachRefusal, InUse, NoMemory};
use crate::removing::{drop_number, is_used};
use geom_core::Rect;
use kind_core::{Attr, AttrRefusal, Cell, EventKind, Kind, Name, Value, check};
use row_store::{
    Cells, Change, Counts, KeptPlaces, Names, Store, drop_names, drop_rows, number_of, take_out,
};
use std::alloc::{AllocError, Global};
use std::marker::Model;
use vscreen_core::Film;

/// The widgets of all clients: rows in the order of making, under the names that the clients gave them.
/// Contracts see the record `Widgets` of widget_model. See docs/MACHINE.md, "Widgets"; docs/ARCHITECTURE.md,
/// "Cost", has the reasons for what the calls cost.
pub struct Tree {
    clients: Vec<u32>,
    names: Names,
    store: Store,
    cells: Cells,
    counts: Counts,
    places: KeptPlaces,
}

impl Model for Tree {
    ghost use Rattle.widget_model.specs.Widgets.{Widgets};
    ghost use Rattle.tree_core.specs.Kept.{IsTree};

    ghost Value = { Widgets };

    ghost view = { λ t. record { clients = t.clients.items; entries = t.store; places = t.places.slots } };

    ghost invariant = { λ t. IsTree (record { clients = t.clients.items; names = t.names; entries = t.store; cells = t.cells; counts = t.counts; kept = t.places }) };
}

impl Drop for Tree {
    fn drop(self) {
        let Tree {
            clients: _,
            names: _,
            store: _,
            cells: _,
            counts: _,
            places: _,
        } = self;
    }
}

impl Tree {
    /// A tree with no clients and no widgets. It takes no memory yet.
    pub fn new(alloc: Global) -> Tree
        ensures empty { result ≡ no_widgets }
        ensures valid { IsWidgets result }
    {
        Tree {
            clients: Vec::new(alloc),
            names: Names::new(alloc),
            store: Store::new(alloc),
            cells: Cells::new(alloc),
            counts: Counts::new(),
            places: KeptPlaces::new(alloc),
        }
    }

    /// Another tree that equals this one: the same rows under the same numbers, with their films, and the same places.
    /// The next number that it gives a client is the one that this tree would give it. `NoMemory` comes only for want
    /// of memory, and nothing of the copy is left behind then. It costs a look at each name and row, and one move of each
    /// picture, of the cells and of the places.
    pub fn copy(&self) -> Result<Tree, NoMemory>
        ensures same { IfOk result (λ tree. tree ≡ self.now) }
        ensures valid { IsWidgets self.now }
    {
        match self.copied() {
            Ok(tree) => Ok(tree),
            Err(_) => Err(NoMemory),
        }
    }

    // Another tree that equals this one. Each part is copied by what it offers.
    fn copied(&self) -> Result<Tree, AllocError>
        ensures same { IfOk result (λ tree. tree ≡ self.now) }
        ensures valid { IsWidgets self.now }
    {
        Ok(Tree {
            clients: Vec::from_slice(*self.clients.allocator(), &self.clients)?,
            names: self.names.copy()?,
            store: self.store.copy()?,
            cells: self.cells.copy()?,
            counts: self.counts.copy(),
            places: self.places.copy()?,
        })
    }

    /// Joins a client, 1 to 16, that isn't joined, as the last one. NoMemory leaves the tree as it was. It
    /// makes 32,768 cells for the children of the client's widgets and 128 slots for their kept places, and
    /// as many for each lower number that has none.
    pub fn join_client(&mut self, client: u32) -> Result<(), NoMemory>
        requires low { 1 ≤ client }
        requires high { client ≤ 16 }
        requires new_client { is_joined self.old.clients client ≡ false }
        ensures ok { OnOk result (self.new ≡ joined client self.old) }
        ensures err { OnErr result (self.new ≡ self.old) }
        ensures kept { KeepsLive self.old self.new }
        ensures valid { IsWidgets self.new }
    {
        match self.cells.grow(client) {
            Ok(()) => {}
            Err(_) => return Err(NoMemory),
        }
        match self.places.grow(client) {
            Ok(()) => {}
            Err(_) => return Err(NoMemory),
        }
        match self.clients.push(client) {
            Ok(()) => Ok(()),
            Err(_) => Err(NoMemory),
        }
    }

    /// Adds a widget of a joined client, last, with a number that wasn't live. Refuses NameTaken exactly
    /// where the client has a widget of that name, then Full with 128 exactly where it has 128, then Full
    /// with 8 exactly for a ninth Window or a ninth VScreen. A refusal leaves the tree as it was. It costs a
    /// few look-ups in hash maps and at most 128 tries for a number, mostly one, whatever the number of rows;
    /// now and then a map that is full grows.
    pub fn add(&mut self, client: u32, name: Name, kind: Kind) -> Result<Id, AddRefusal>
        requires { is_joined self.old.clients client ≡ true }
        ensures ok { IfOk result (λ id. self.new ≡ with_new id.key (new_row client name kind) self.old) }
        ensures clients { self.new.clients ≡ self.old.clients }
        ensures live { IfOk result (λ id. IsLive self.new id.key) }
        ensures fresh { IfOk result (λ id. row_at self.old.entries id.key ≡ None) }
        ensures number { IfOk result (λ id. id.key < 2048) }
        ensures unplaced { IfOk result (λ id. place_at self.new id.key ≡ None) }
        ensures allowed { OnOk result (add_refusal (rows_of self.old) client name kind ≡ None) }
        ensures refused { IfErr result (AnswersRefusal (add_refusal (rows_of self.old) client name kind)) }
        ensures err { OnErr result (self.new ≡ self.old) }
        ensures kept { KeepsLive self.old self.new }
        ensures valid { IsWidgets self.new }
    {
        match add_refusal(&self.names, &self.store, &self.counts, client, &name, kind) {
            Some(refusal) => return Err(refusal),
            None => {}
        }
        let id = free_number(&self.store, client, self.counts.start(client));
        match put_counted(
            &mut self.names,
            &mut self.store,
            &mut self.counts,
            id,
            client,
            name,
            kind,
        ) {
            Ok(()) => Ok(Id { key: id }),
            Err(_) => Err(AddRefusal::NoMemory),
        }
    }

    /// How many widgets the client, 0 to 16, has. It reads a counter.
    pub fn count(&self, client: u32) -> u32
        requires { client ≤ 16 }
        ensures count { result ≡ rows_counted client any_kind (rows_of self.now) }
        ensures valid { IsWidgets self.now }
    {
        self.counts.has(client, None)
    }

    /// The number of the client's widget of that name, None exactly where there is none. It costs one look-up
    /// in a hash map.
    pub fn find(&self, client: u32, name: &Name) -> Option<Id>
        ensures found { option_map (λ id. id.key) result ≡ id_named (nodes self.now.entries) client name.now }
        ensures live { IfSome result (λ id. IsLive self.now id.key) }
        ensures valid { IsWidgets self.now }
    {
        match number_of(&self.names, &self.store, client, name) {
            Some(key) => Some(Id { key }),
            None => None,
        }
    }

    /// Whether the number, any one, names a widget. It costs one look-up in a hash map.
    pub fn is_live(&self, id: Id) -> bool
        ensures live { result ≡ is_some (row_at self.now.entries id.key) }
        ensures valid { IsWidgets self.now }
    {
        self.store.get(id.key).is_some()
    }

    /// The kind of the widget. It costs one look-up in a hash map.
    pub fn kind(&self, id: Id) -> Kind
        requires { IsLive self.now id.key }
        ensures kind { option_map (λ row. row.kind) (row_at self.now.entries id.key) ≡ Some result }
        ensures valid { IsWidgets self.now }
    {
        self.store.row(id.key).kind()
    }

    /// The client, 1 to 16, whose widget it is. It costs one look-up in a hash map.
    pub fn owner(&self, id: Id) -> u32
        requires { IsLive self.now id.key }
        ensures owner { option_map (λ row. row.client) (row_at self.now.entries id.key) ≡ Some result }
        ensures valid { IsWidgets self.now }
    {
        self.store.row(id.key).client()
    }

    /// The value of the widget's attribute as its row has it, None exactly where the row has none. It costs
    /// one look-up in a hash map, whatever the number of rows.
    pub fn attr(&self, id: Id, attr: Attr) -> Option<Value>
        requires { IsLive self.now id.key }
        ensures value { option_map (λ row. attr_of row attr) (row_at self.now.entries id.key) ≡ Some result }
        ensures valid { IsWidgets self.now }
    {
        self.store.row(id.key).attr(attr)
    }

    /// Gives the widget's attribute a value. Refuses NotOfKind exactly where the kind has no such attribute
    /// or it has the other type, and OutOfRange exactly where a number is outside its range. A refusal
    /// leaves the tree as it was. It costs two look-ups in a hash map.
    pub fn set_attr(&mut self, id: Id, attr: Attr, value: &Value) -> Result<(), AttrRefusal>
        requires { IsLive self.old id.key }
        ensures answer { option_map (λ row. judged (domain_of row.kind attr) value.now) (row_at self.old.entries id.key) ≡ Some result }
        ensures ok { OnOk result (self.new ≡ edited id.key (with_attr attr value.now) self.old) }
        ensures err { OnErr result (self.new ≡ self.old) }
        ensures kept { KeepsLive self.old self.new }
        ensures valid { IsWidgets self.new }
    {
        let kind = self.store.row(id.key).kind();
        match check(kind, attr, value) {
            Ok(()) => {}
            Err(refusal) => return Err(refusal),
        }
        self.store.change(
            id.key,
            Change::Attribute {
                attr,
                value: *value,
            },
        );
        Ok(())
    }

    /// The size in pixels and the weight of a Grid's column, 1 to 16; (0, 0) where none was given. It costs
    /// one look-up in a hash map.
    pub fn column_rule(&self, id: Id, index: u32) -> (u32, u32)
        requires grid { IsGrid self.now id.key }
        requires index { IsIndex index }
        ensures rule { option_map (λ row. column_rule_of row index) (row_at self.now.entries id.key) ≡ Some result }
        ensures valid { IsWidgets self.now }
    {
        self.store.row(id.key).column_rule(index)
    }

    /// The size in pixels and the weight of a Grid's row, 1 to 16; (0, 0) where none was given. It costs one
    /// look-up in a hash map.
    pub fn row_rule(&self, id: Id, index: u32) -> (u32, u32)
        requires grid { IsGrid self.now id.key }
        requires index { IsIndex index }
        ensures rule { option_map (λ row. row_rule_of row index) (row_at self.now.entries id.key) ≡ Some result }
        ensures valid { IsWidgets self.now }
    {
        self.store.row(id.key).row_rule(index)
    }

    /// Gives a Grid's column, 1 to 16, a size of at most 1,024 pixels and a weight of at most 1,000. It costs
    /// one look-up in a hash map.
    pub fn set_column_rule(&mut self, id: Id, index: u32, size: u32, weight: u32)
        requires grid { IsGrid self.old id.key }
        requires index { IsIndex index }
        requires size { size ≤ 1024 }
        requires weight { weight ≤ 1000 }
        ensures rule { self.new ≡ edited id.key (with_column_rule index (size, weight)) self.old }
        ensures kept { KeepsLive self.old self.new }
        ensures valid { IsWidgets self.new }
    {
        self.store.change(
            id.key,
            Change::ColumnRule {
                index,
                rule: (size, weight),
            },
        );
    }

    /// Gives a Grid's row, 1 to 16, a size of at most 1,024 pixels and a weight of at most 1,000. It costs
    /// one look-up in a hash map.
    pub fn set_row_rule(&mut self, id: Id, index: u32, size: u32, weight: u32)
        requires grid { IsGrid self.old id.key }
        requires index { IsIndex index }
        requires size { size ≤ 1024 }
        requires weight { weight ≤ 1000 }
        ensures rule { self.new ≡ edited id.key (with_row_rule index (size, weight)) self.old }
        ensures kept { KeepsLive self.old self.new }
        ensures valid { IsWidgets self.new }
    {
        self.store.change(
            id.key,
            Change::RowRule {
                index,
                rule: (size, weight),
            },
        );
    }

    /// The Variable that the widget is linked to, None exactly where it isn't linked. It costs at most two
    /// look-ups in hash maps.
    pub fn link(&self, id: Id) -> Option<Id>
        requires { IsLive self.now id.key }
        ensures found { option_map (λ id. id.key) result ≡ linked_id self.now id.key }
        ensures live { IfSome result (λ id. IsLive self.now id.key) }
        ensures valid { IsWidgets self.now }
    {
        match link_of(&self.names, &self.store, id.key) {
            Some(key) => Some(Id { key }),
            None => None,
        }
    }

    /// Links the widget to a Variable of the same client, or unlinks it. It costs at most two look-ups in a
    /// hash map.
    pub fn set_link(&mut self, id: Id, variable: Option<Id>)
        requires live { IsLive self.old id.key }
        requires variable { IfSome variable (λ other. row_kind self.old.entries other.key ≡ Some Kind.Variable) }
        requires owner { IfSome variable (λ other. row_client self.old.entries other.key ≡ row_client self.old.entries id.key) }
        ensures link { self.new ≡ edited id.key (with_link (option_and_then (λ other. name_at self.old.entries other.key) variable)) self.old }
        ensures kept { KeepsLive self.old self.new }
        ensures valid { IsWidgets self.new }
    {
        let name = name_of(&self.store, variable);
        self.store.change(id.key, Change::Link { variable: name });
    }

    /// The tag that the widget's event is bound to, None exactly where it isn't bound. It costs one look-up
    /// in a hash map.
    pub fn binding(&self, id: Id, event: EventKind) -> Option<Name>
        requires { IsLive self.now id.key }
        ensures tag { option_map (λ row. binding_of row event) (row_at self.now.entries id.key) ≡ Some result }
        ensures valid { IsWidgets self.now }
    {
        self.store.row(id.key).binding(event)
    }

    /// Binds the widget's event to a tag, or unbinds it. It costs one look-up in a hash map.
    pub fn set_binding(&mut self, id: Id, event: EventKind, tag: Option<Name>)
        requires { IsLive self.old id.key }
        ensures tag { self.new ≡ edited id.key (with_binding event tag) self.old }
        ensures kept { KeepsLive self.old self.new }
        ensures valid { IsWidgets self.new }
    {
        self.store.change(id.key, Change::Binding { event, tag });
    }

    /// Hangs the child into that cell of the parent, both widgets of one client. Refuses WrongKind,
    /// HasParent, Cycle, TooDeep and CellTaken, in this order, exactly where the type says. A refusal leaves
    /// the tree as it was. It goes up at most 12 levels from the parent, with a few look-ups in hash maps on
    /// each, and down through the cells of the child and of the widgets under it, whatever the number of
    /// other rows.
    pub fn attach(&mut self, parent: Id, child: Id, cell: Cell) -> Result<(), AttachRefusal>
        requires parent { IsLive self.old parent.key }
        requires child { IsLive self.old child.key }
        requires owner { row_client self.old.entries parent.key ≡ row_client self.old.entries child.key }
        requires cell { option_map_or (λ kind. takes_cell kind cell) (row_kind self.old.entries parent.key) false ≡ true }
        ensures answer { attach_answer self.old parent.key child.key cell ≡ Some (result_err result) }
        ensures ok { OnOk result (self.new ≡ edited child.key (with_attached (option_map (λ name. (name, cell)) (name_at self.old.entries parent.key))) self.old) }
        ensures err { OnErr result (self.new ≡ self.old) }
        ensures kept { KeepsLive self.old self.new }
        ensures valid { IsWidgets self.new }
    {
        match attach_refusal(
            &self.names,
            &self.store,
            &self.cells,
            parent.key,
            child.key,
            cell,
        ) {
            Some(refusal) => return Err(refusal),
            None => {}
        }
        hang(
            &mut self.store,
            &mut self.cells,
            parent.key,
            child.key,
            cell,
        );
        Ok(())
    }

    /// Takes the widget out of its parent. Without a parent nothing changes. It costs a few look-ups in hash
    /// maps, whatever the number of rows.
    pub fn detach(&mut self, child: Id)
        requires { IsLive self.old child.key }
        ensures attached { self.new ≡ edited child.key (with_attached None) self.old }
        ensures kept { KeepsLive self.old self.new }
        ensures valid { IsWidgets self.new }
    {
        unhang(&self.names, &mut self.store, &mut self.cells, child.key);
    }

    /// Removes the widget. Refuses InUse exactly where it hangs in another, has a child, is linked by
    /// another, or is an admitted VScreen, and leaves the tree as it was. It walks the rows: for one that is linked to this one, and to
    /// close the gap.
    pub fn remove(&mut self, id: Id) -> Result<(), InUse>
        requires { IsLive self.old id.key }
        ensures answer { option_map (is_used (rows_of self.old)) (row_at self.old.entries id.key) ≡ Some (is_err result) }
        ensures ok { OnOk result (self.new ≡ removed id.key self.old) }
        ensures err { OnErr result (self.new ≡ self.old) }
        ensures others { (other : ℕ) → nat_eq other id.key ≡ false → IsLive self.old other → IsLive self.new other }
        ensures valid { IsWidgets self.new }
    {
        if is_used(&self.store, &self.cells, id.key) {
            return Err(InUse);
        }
        let row = self.store.row(id.key);
        let client = row.client();
        let kind = row.kind();
        take_out(&mut self.names, &mut self.store, id.key);
        self.counts.lose(client, kind);
        self.places.put(id.key, None);
        Ok(())
    }

    /// Removes all widgets of a joined client, which then isn't joined. It walks the rows once for each of
    /// them, and empties the client's 32,768 cells for children and 128 slots for kept places.
    pub fn drop_client(&mut self, client: u32)
        requires { is_joined self.old.clients client ≡ true }
        ensures left { self.new ≡ departed client self.old }
        ensures others { (other : ℕ) → IsLive self.old other → (row_client self.old.entries other ≡ Some client → ⊥) → IsLive self.new other }
        ensures valid { IsWidgets self.new }
    {
        drop_number(&mut self.clients, client);
        drop_names(&mut self.names, client);
        drop_rows(&mut self.store, client);
        self.cells.clear(client);
        self.counts.forget(client);
        self.places.clear(client);
    }

    /// The widget in which this one hangs, None exactly where it hangs in none. It costs at most two look-ups
    /// in hash maps.
    pub fn parent(&self, id: Id) -> Option<Id>
        requires { IsLive self.now id.key }
        ensures found { option_map (λ id. id.key) result ≡ parent_id self.now id.key }
        ensures live { IfSome result (λ id. IsLive self.now id.key) }
        ensures valid { IsWidgets self.now }
    {
        match parent_number(&self.names, &self.store, id.key) {
            Some(key) => Some(Id { key }),
            None => None,
        }
    }

    /// The widget that is above this one, or is this one, and hangs in none. It goes up at most 12 levels,
    /// with two look-ups in hash maps on each.
    pub fn root(&self, id: Id) -> Id
        requires { IsLive self.now id.key }
        ensures found { root_id self.now id.key ≡ Some result.key }
        ensures live { IsLive self.now result.key }
        ensures valid { IsWidgets self.now }
    {
        let key = root_number(&self.names, &self.store, id.key);
        Id { key }
    }

    /// The widget that hangs in that column and row, None exactly where there is none, as outside 1 to 16. It
    /// reads one cell of a table.
    pub fn child_at(&self, id: Id, column: u32, row: u32) -> Option<Id>
        requires { IsLive self.now id.key }
        ensures found { option_map (λ id. id.key) result ≡ child_id self.now id.key column row }
        ensures live { IfSome result (λ id. IsLive self.now id.key) }
        ensures valid { IsWidgets self.now }
    {
        match child_number(&self.store, &self.cells, id.key, column, row) {
            Some(key) => Some(Id { key }),
            None => None,
        }
    }

    /// The cell of its parent in which the widget hangs, None exactly where it hangs in none. It costs one
    /// look-up in a hash map.
    pub fn cell(&self, id: Id) -> Option<Cell>
        requires { IsLive self.now id.key }
        ensures cell { option_map (λ row. option_map (λ attached. attached.1) row.attached) (row_at self.now.entries id.key) ≡ Some result }
        ensures valid { IsWidgets self.now }
    {
        match self.store.row(id.key).attached() {
            Some((_, cell)) => Some(cell),
            None => None,
        }
    }

    /// The widget's film, lent; None exactly where it has none. Only a VScreen has one. It costs one look-up in a hash
    /// map.
    pub fn film(&self, id: Id) -> Option<&Film>
        requires { IsLive self.now id.key }
        ensures film { option_map (λ row. row.film) (row_at self.now.entries id.key) ≡ Some (option_copied result) }
        ensures valid { IsWidgets self.now }
    {
        self.store.row(id.key).film()
    }

    /// Takes the film out of the widget, which then has none; None exactly where it had none. The caller changes the
    /// film and puts it back by `set_film`. No byte of it is copied: it costs one look-up in a hash map.
    pub fn take_film(&mut self, id: Id) -> Option<Film>
        requires { IsLive self.old id.key }
        ensures film { option_map (λ row. row.film) (row_at self.old.entries id.key) ≡ Some result }
        ensures whole { IfSome result (λ film. IsFilm film) }
        ensures taken { self.new ≡ edited id.key (with_film None) self.old }
        ensures kept { KeepsLive self.old self.new }
        ensures valid { IsWidgets self.new }
    {
        self.store.swap_film(id.key, None)
    }

    /// Puts the film into the widget, a VScreen, in place of the one that it had. No byte of it is copied: it costs
    /// one look-up in a hash map.
    pub fn set_film(&mut self, id: Id, film: Film)
        requires { row_kind self.old.entries id.key ≡ Some VScreen }
        ensures film { self.new ≡ edited id.key (with_film (Some film)) self.old }
        ensures kept { KeepsLive self.old self.new }
        ensures valid { IsWidgets self.new }
    {
        // A film's own call says that it is a whole one, as each film in the tree is.
        let _ = film.width();
        let _ = self.store.swap_film(id.key, Some(film));
    }

    /// The place that is kept of the widget, in pixels of the screen; None exactly where none is kept. It is the last
    /// that `set_place` gave it, None at first. It reads one slot.
    pub fn place_of(&self, id: Id) -> Option<Rect>
        requires { IsLive self.now id.key }
        ensures place { result ≡ place_at self.now id.key }
        ensures valid { IsWidgets self.now }
    {
        self.places.at(id.key)
    }

    /// Keeps that place of the widget, or keeps none. No row and no other place changes. It writes one slot.
    pub fn set_place(&mut self, id: Id, place: Option<Rect>)
        requires { IsLive self.old id.key }
        ensures place { self.new ≡ with_place id.key place self.old }
        ensures now { place_at self.new id.key ≡ place }
        ensures others { (other : ℕ) → nat_eq other id.key ≡ false → place_at self.new other ≡ place_at self.old other }
        ensures kept { KeepsLive self.old self.new }
        ensures valid { IsWidgets self.new }
    {
        self.places.put(id.key, place);
    }
}
