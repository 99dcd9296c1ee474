// The lists of a call, from those of its op. Each goes over what the list's room held before.
ghost use Rattle.std.specs.Prelude.{◌≡◌, ◌≤◌, ℕ, List, map, length, slice_get};
ghost use Rattle.xr_model.specs.scenario.InRange.{Each, IsLayer};
ghost use Rattle.xr_model.specs.scenario.ScriptForm.{IsAnyPlace};
ghost use Rattle.xr_model.specs.runs.NameValues.{value_of, binding_for, active_set_for, sub_image_for, sub_image_by, four, layer_for};

use crate::Names;
use crate::room::Room;
use xr_types::{
    ActiveSet, ActiveSetUse, AtomUse, Binding, BindingUse, HandleUse, Layer, LayerUse, MOST_LISTED,
    SubImage, SubImageUse,
};

/// An item of an op's list. `value` is what a call's list has for it.
pub(crate) trait ListedUse {
    type Value: Drop;

    ghost value: { List ℕ → Self → Self.Value };

    /// What a call's list has for the item.
    fn value(&self, names: &Names) -> Self::Value
        ensures { result ≡ value names.now self.now };
}

impl ListedUse for HandleUse {
    type Value = u64;

    ghost value = { λ names used. value_of names used.handle };

    fn value(&self, names: &Names) -> u64 {
        names.value_of(self.handle)
    }
}

impl ListedUse for AtomUse {
    type Value = u64;

    ghost value = { λ names used. value_of names used.atom };

    fn value(&self, names: &Names) -> u64 {
        names.value_of(self.atom)
    }
}

impl ListedUse for BindingUse {
    type Value = Binding;

    ghost value = { binding_for };

    fn value(&self, names: &Names) -> Binding {
        Binding {
            action: names.value_of(self.action),
            path: names.value_of(self.path),
        }
    }
}

impl ListedUse for ActiveSetUse {
    type Value = ActiveSet;

    ghost value = { active_set_for };

    fn value(&self, names: &Names) -> ActiveSet {
        ActiveSet {
            set: names.value_of(self.set),
            sub: names.value_of(self.sub),
        }
    }
}

/// The values of a list's items.
pub(crate) fn list_for<'a, U: ListedUse, const N: usize>(
    room: &'a mut Room<U::Value, N>,
    names: &Names,
    uses: &[U],
) -> &'a [U::Value]
    requires { length uses.now ≤ N }
    ensures { result.now ≡ map (U.value names.now) uses.now }
{
    room.clear();
    for used in uses {
        room.push(used.value(names));
    }
    room.as_slice()
}

fn sub_image(names: &Names, used: &SubImageUse) -> SubImage
    ensures { result ≡ sub_image_for names.now used.now }
{
    SubImage {
        chain: names.value_of(used.chain),
        x: used.x,
        y: used.y,
        w: used.w,
        h: used.h,
    }
}

fn view_at(names: &Names, views: &[SubImageUse], index: usize) -> SubImage
    ensures { result ≡ sub_image_by names.now (slice_get views.now index) }
{
    match views.get(index) {
        Some(used) => sub_image(names, used),
        None => SubImage {
            chain: 0,
            x: 0,
            y: 0,
            w: 0,
            h: 0,
        },
    }
}

fn layer(names: &Names, used: &LayerUse) -> Layer
    requires { IsLayer IsAnyPlace used.now }
    ensures { result ≡ layer_for names.now used.now }
{
    match used {
        LayerUse::Projection { space, views } => {
            let views = views.as_slice();
            Layer::Projection {
                space: names.value_of(*space),
                count: views.len() as u8,
                views: [
                    view_at(names, views, 0),
                    view_at(names, views, 1),
                    view_at(names, views, 2),
                    view_at(names, views, 3),
                ],
            }
        }
        LayerUse::Quad { space, image, pose } => Layer::Quad {
            space: names.value_of(*space),
            image: sub_image(names, image),
            pose: *pose,
        },
    }
}

/// The layers of a frame.
#[tactic(auto, using(crate::proofs::Each::each_item))]
pub(crate) fn layers_for<'a>(
    room: &'a mut Room<Layer, MOST_LISTED>,
    names: &Names,
    uses: &[LayerUse],
) -> &'a [Layer]
    requires few { length uses.now ≤ MOST_LISTED }
    requires each { Each (IsLayer IsAnyPlace) uses.now }
    ensures { result.now ≡ map (layer_for names.now) uses.now }
{
    room.clear();
    for used in uses {
        room.push(layer(names, used));
    }
    room.as_slice()
}
