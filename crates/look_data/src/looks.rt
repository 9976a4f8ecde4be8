//! The looks of widgets, read by their numbers.
ghost use Rattle.std.specs.Prelude.{◌≡◌, Some, length};
ghost use Rattle.std.specs.Option.{option_map};
ghost use Rattle.kind_core.specs.declared.kinds.Kind.TheVariants.{Window as WindowKind, Button as ButtonKind, Label as LabelKind, Entry as EntryKind, Scale as ScaleKind, Scrollbar as ScrollbarKind, VScreen as VScreenKind};
ghost use Rattle.kind_core.specs.declared.kinds.Attr.TheVariants.{Text as TextAttr};
ghost use Rattle.look_data.specs.Data.{seen_in, but_bytes};
ghost use Rattle.scene_core.specs.Children.{row_for};
ghost use Rattle.scene_core.specs.View.{scene_of};
ghost use Rattle.scene_model.specs.LookOf.{look_of, look_by};
ghost use Rattle.scene_model.specs.Values.{caret_of, text_of};
ghost use Rattle.widget_model.specs.Forest.{IsWidgets};
ghost use Rattle.widget_model.specs.Widgets.{IsLive, row_at};

use crate::data::LookData;
use crate::held::{has_focus, is_held};
use crate::reading::{count_of, is_vertical, linked_value, scale_value, scrollbar_value, text_of};
use kind_core::{Attr, Kind, Text};
use scene_core::View;
use tree_core::{Id, Tree};

/// The look of a Window.
fn window(view: &View<'_>, id: Id) -> LookData
    requires live { IsLive view.now.tree.now id.key }
    ensures { seen_in result ≡ look_by WindowKind (scene_of view.now) (row_for view.now.tree.now id.key) }
{
    LookData::Window {
        title: text_of(view.tree, id, Attr::Title),
    }
}

/// The look of a Button.
fn button(view: &View<'_>, id: Id) -> LookData
    requires widgets { IsWidgets view.now.tree.now }
    requires live { IsLive view.now.tree.now id.key }
    ensures { seen_in result ≡ look_by ButtonKind (scene_of view.now) (row_for view.now.tree.now id.key) }
{
    LookData::Button {
        text: text_of(view.tree, id, Attr::Text),
        held: is_held(view, id),
    }
}

/// The look of a Label.
fn label(view: &View<'_>, id: Id) -> LookData
    requires live { IsLive view.now.tree.now id.key }
    ensures { seen_in result ≡ look_by LabelKind (scene_of view.now) (row_for view.now.tree.now id.key) }
{
    LookData::Label {
        text: text_of(view.tree, id, Attr::Text),
        number: linked_value(view.tree, id),
    }
}

/// Where an Entry's caret stands in its text.
fn caret_in(tree: &Tree, id: Id, text: &Text) -> u32
    requires live { IsLive tree.now id.key }
    requires text { text.now ≡ text_of TextAttr (row_for tree.now id.key) }
    ensures { result ≡ caret_of (row_for tree.now id.key) }
{
    count_of(tree, id, Attr::Caret).min(text.as_slice().len() as u32)
}

/// The look of an Entry.
fn entry(view: &View<'_>, id: Id) -> LookData
    requires widgets { IsWidgets view.now.tree.now }
    requires live { IsLive view.now.tree.now id.key }
    ensures { seen_in result ≡ look_by EntryKind (scene_of view.now) (row_for view.now.tree.now id.key) }
{
    let text = text_of(view.tree, id, Attr::Text);
    LookData::Entry {
        text,
        caret: caret_in(view.tree, id, &text),
        focus: has_focus(view, id),
    }
}

/// The look of a Scale.
fn scale(view: &View<'_>, id: Id) -> LookData
    requires widgets { IsWidgets view.now.tree.now }
    requires live { IsLive view.now.tree.now id.key }
    ensures { seen_in result ≡ look_by ScaleKind (scene_of view.now) (row_for view.now.tree.now id.key) }
{
    LookData::Scale {
        value: scale_value(view.tree, id),
        max: count_of(view.tree, id, Attr::Max),
        vert: is_vertical(view.tree, id),
        held: is_held(view, id),
    }
}

/// The look of a Scrollbar.
fn scrollbar(view: &View<'_>, id: Id) -> LookData
    requires widgets { IsWidgets view.now.tree.now }
    requires live { IsLive view.now.tree.now id.key }
    ensures { seen_in result ≡ look_by ScrollbarKind (scene_of view.now) (row_for view.now.tree.now id.key) }
{
    LookData::Scrollbar {
        value: scrollbar_value(view.tree, id),
        real: count_of(view.tree, id, Attr::Real),
        view: count_of(view.tree, id, Attr::View),
        vert: is_vertical(view.tree, id),
        held: is_held(view, id),
    }
}

/// The look of a VScreen, but for its film's bytes.
fn vscreen(view: &View<'_>, id: Id) -> LookData
    requires live { IsLive view.now.tree.now id.key }
    ensures { seen_in result ≡ but_bytes (look_by VScreenKind (scene_of view.now) (row_for view.now.tree.now id.key)) }
{
    match view.tree.film(id) {
        Some(film) => LookData::Film {
            width: film.width(),
            height: film.height(),
        },
        None => LookData::NoFilm,
    }
}

/// What the widget looks like, but for its size and a film's bytes: a value of its own, which a later change of the
/// view leaves as it is. It costs the look-ups of the kind's attributes, and of the linked Variable where there is
/// one. See docs/GUIDE.md, "Looks".
pub fn look_data(view: &View<'_>, id: Id) -> LookData
    requires widgets { IsWidgets view.now.tree.now }
    requires live { IsLive view.now.tree.now id.key }
    ensures { option_map (λ row. but_bytes (look_of (scene_of view.now) row)) (row_at view.now.tree.now.entries id.key) ≡ Some (seen_in result) }
{
    match view.tree.kind(id) {
        Kind::Window => window(view, id),
        Kind::Grid => LookData::Grid,
        Kind::Frame => LookData::Frame,
        Kind::Button => button(view, id),
        Kind::Label => label(view, id),
        Kind::Entry => entry(view, id),
        Kind::Scale => scale(view, id),
        Kind::Scrollbar => scrollbar(view, id),
        Kind::VScreen => vscreen(view, id),
        Kind::Variable => LookData::NoFilm,
    }
}
