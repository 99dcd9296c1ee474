// What the lists of an op may hold.
ghost use Rattle.std.specs.Prelude.{◌≡◌, IfOk, IfSome};
ghost use Rattle.serde_json.specs.View.{view};
ghost use Rattle.xr_model.specs.scenario.InRange.{IsHandlePart, IsAtomPart, IsBinding, IsActiveSet, IsPixel, IsSubImage, IsLayer};
ghost use Rattle.xr_model.specs.scenario.ScriptForm.{IsKnownPlace};
ghost use Rattle.xr_model.specs.scenario.ListItems.{item_count, handle_part, atom_part, binding_part, active_set_part, pixel_at, sub_image_part, projection_in, quad_in, layer_part};

use crate::keys::only_keys;
use crate::lists::{ListItem, list_in};
use crate::named_ops::NamedOps;
use crate::numbers::{MOST, number_in};
use crate::uses::{atom_in, handle_in};
use serde_json::Value;
use std::alloc::{AllocError, Global};
use xr_types::{
    ActiveSetUse, AtomUse, BindingUse, FieldName, HandleUse, LayerUse, MOST_VIEWS, SubImageUse,
};

impl ListItem for HandleUse {
    ghost part = { handle_part };

    ghost formed = { λ names u. IsHandlePart (IsKnownPlace names) u };

    fn read(
        _alloc: Global,
        named_ops: &NamedOps<'_>,
        value: &Value,
    ) -> Result<Option<HandleUse>, AllocError> {
        match handle_in(named_ops, value) {
            Some(handle) => Ok(Some(HandleUse { handle })),
            None => Ok(None),
        }
    }
}

impl ListItem for AtomUse {
    ghost part = { atom_part };

    ghost formed = { λ names u. IsAtomPart (IsKnownPlace names) u };

    fn read(
        _alloc: Global,
        named_ops: &NamedOps<'_>,
        value: &Value,
    ) -> Result<Option<AtomUse>, AllocError> {
        match atom_in(named_ops, value) {
            Some(atom) => Ok(Some(AtomUse { atom })),
            None => Ok(None),
        }
    }
}

/// How many items an array has.
#[tactic(auto, using(crate::proofs::Items::items_counted))]
fn item_count(value: &Value) -> usize
    ensures { result ≡ item_count (view value.now) }
{
    match value.as_array() {
        Some(items) => items.len(),
        None => 0,
    }
}

fn binding(named_ops: &NamedOps<'_>, value: &Value) -> Option<BindingUse>
    ensures found { result ≡ binding_part named_ops.now (view value.now) }
    ensures formed { IfSome result (λ u. IsBinding (IsKnownPlace named_ops.now) u) }
{
    if item_count(value) != 2 {
        return None;
    }
    let action = handle_in(named_ops, value.get(0)?)?;
    let path = atom_in(named_ops, value.get(1)?)?;
    Some(BindingUse { action, path })
}

impl ListItem for BindingUse {
    ghost part = { binding_part };

    ghost formed = { λ names u. IsBinding (IsKnownPlace names) u };

    fn read(
        _alloc: Global,
        named_ops: &NamedOps<'_>,
        value: &Value,
    ) -> Result<Option<BindingUse>, AllocError> {
        Ok(binding(named_ops, value))
    }
}

fn active_set(named_ops: &NamedOps<'_>, value: &Value) -> Option<ActiveSetUse>
    ensures found { result ≡ active_set_part named_ops.now (view value.now) }
    ensures formed { IfSome result (λ u. IsActiveSet (IsKnownPlace named_ops.now) u) }
{
    if item_count(value) != 2 {
        return None;
    }
    let set = handle_in(named_ops, value.get(0)?)?;
    let sub = atom_in(named_ops, value.get(1)?)?;
    Some(ActiveSetUse { set, sub })
}

impl ListItem for ActiveSetUse {
    ghost part = { active_set_part };

    ghost formed = { λ names u. IsActiveSet (IsKnownPlace names) u };

    fn read(
        _alloc: Global,
        named_ops: &NamedOps<'_>,
        value: &Value,
    ) -> Result<Option<ActiveSetUse>, AllocError> {
        Ok(active_set(named_ops, value))
    }
}

fn pixel_at(value: &Value, place: usize) -> Option<i32>
    ensures found { result ≡ pixel_at place (view value.now) }
    ensures formed { IfSome result IsPixel }
{
    let number = value.get(place)?.as_i64()?;
    if i64::from(i32::MIN) <= number && number <= i64::from(i32::MAX) {
        Some(number as i32)
    } else {
        None
    }
}

fn sub_image(named_ops: &NamedOps<'_>, value: &Value) -> Option<SubImageUse>
    ensures found { result ≡ sub_image_part named_ops.now (view value.now) }
    ensures formed { IfSome result (λ u. IsSubImage (IsKnownPlace named_ops.now) u) }
{
    if item_count(value) != 5 {
        return None;
    }
    let chain = handle_in(named_ops, value.get(0)?)?;
    let x = pixel_at(value, 1)?;
    let y = pixel_at(value, 2)?;
    let w = pixel_at(value, 3)?;
    let h = pixel_at(value, 4)?;
    Some(SubImageUse { chain, x, y, w, h })
}

impl ListItem for SubImageUse {
    ghost part = { sub_image_part };

    ghost formed = { λ names u. IsSubImage (IsKnownPlace names) u };

    fn read(
        _alloc: Global,
        named_ops: &NamedOps<'_>,
        value: &Value,
    ) -> Result<Option<SubImageUse>, AllocError> {
        Ok(sub_image(named_ops, value))
    }
}

fn quad(named_ops: &NamedOps<'_>, value: &Value) -> Option<LayerUse>
    ensures found { result ≡ quad_in named_ops.now (view value.now) }
    ensures formed { IfSome result (λ u. IsLayer (IsKnownPlace named_ops.now) u) }
{
    let space = handle_in(named_ops, value.get(FieldName::Quad.name())?)?;
    let image = sub_image(named_ops, value.get(FieldName::Image.name())?)?;
    let pose = number_in(value.get(FieldName::Pose.name())?, MOST)?;
    Some(LayerUse::Quad { space, image, pose })
}

fn projection(
    alloc: Global,
    named_ops: &NamedOps<'_>,
    value: &Value,
) -> Result<Option<LayerUse>, AllocError>
    ensures found { IfOk result (λ found. found ≡ projection_in named_ops.now (view value.now)) }
    ensures formed { IfOk result (λ found. IfSome found (λ u. IsLayer (IsKnownPlace named_ops.now) u)) }
{
    let Some(space) = value.get(FieldName::Projection.name()) else {
        return Ok(None);
    };
    let Some(space) = handle_in(named_ops, space) else {
        return Ok(None);
    };
    let Some(views) = value.get(FieldName::Views.name()) else {
        return Ok(None);
    };
    match list_in(alloc, named_ops, views, MOST_VIEWS)? {
        Some(views) => Ok(Some(LayerUse::Projection { space, views })),
        None => Ok(None),
    }
}

impl ListItem for LayerUse {
    ghost part = { layer_part };

    ghost formed = { λ names u. IsLayer (IsKnownPlace names) u };

    fn read(
        alloc: Global,
        named_ops: &NamedOps<'_>,
        value: &Value,
    ) -> Result<Option<LayerUse>, AllocError> {
        if only_keys(&[FieldName::Projection, FieldName::Views], value) {
            return projection(alloc, named_ops, value);
        }
        if only_keys(&[FieldName::Quad, FieldName::Image, FieldName::Pose], value) {
            return Ok(quad(named_ops, value));
        }
        Ok(None)
    }
}
