//! Lists of values: the items of a text, and objects one by one.

ghost use Rattle.std.specs.Prelude.{◌≡◌, ◌++◌, map, IfOk, OnOk};
ghost use Rattle.sdc_base.specs.Gives.{Meets};
ghost use Rattle.tcl_model.specs.BuiltIns as spec;
ghost use Rattle.timing_types.specs.declared.objects.Value.TheVariants as value;
ghost use Rattle.tcl_eval.specs.ListReads.{AddsItems};

use sdc_base::{Duplicate, List, NoMemory, Stop, Text};
use source_types::TclKind;
use std::alloc::Global;
use tcl_words::list_items;
use timing_types::{Object, Value};

/// Texts as values. The one error is want of memory.
fn text_items(alloc: Global, texts: &[Text]) -> Result<List<Value>, NoMemory>
    ensures { IfOk result (λ values. values ≡ spec.text_values texts.now) }
{
    let mut values = List::new(alloc);
    for text in texts {
        let text = text.copy(alloc)?;
        values.push(Value::Text(text))?;
    }
    Ok(values)
}

/// A list of one object. The one error is want of memory.
fn one_object(alloc: Global, object: Object) -> Result<Value, NoMemory>
    ensures { IfOk result (λ one. one ≡ spec.one_object object) }
{
    let mut objects = List::new(alloc);
    objects.push(object)?;
    Ok(Value::Objects(objects))
}

/// Objects, each as a list of one. The one error is want of memory.
fn object_items(alloc: Global, objects: &[Object]) -> Result<List<Value>, NoMemory>
    ensures { IfOk result (λ values. values ≡ map spec.one_object objects.now) }
{
    let mut values = List::new(alloc);
    for object in objects {
        let one = one_object(alloc, *object)?;
        values.push(one)?;
    }
    Ok(values)
}

/// The items of a text as values. Refused as `list_items` refuses.
#[tactic(auto, using(crate::proofs::ListRuns::text_has_items, crate::proofs::ListRuns::text_has_none))]
fn items_of_text(alloc: Global, text: &str) -> Result<List<Value>, Stop<TclKind>>
    ensures { Meets result (spec.HasItems (value.Text text.now)) }
{
    let texts = list_items(alloc, text)?;
    let values = text_items(alloc, texts.as_slice())?;
    Ok(values)
}

/// Objects as items, each a list of one. The one error is want of memory.
fn items_of_objects(alloc: Global, objects: &List<Object>) -> Result<List<Value>, Stop<TclKind>>
    ensures { Meets result (spec.HasItems (value.Objects objects.now)) }
{
    let values = object_items(alloc, objects.as_slice())?;
    Ok(values)
}

/// The items of a value (Tcl), an object being a list of one. Refused as `list_items` refuses.
pub fn item_values(alloc: Global, value: &Value) -> Result<List<Value>, Stop<TclKind>>
    ensures { Meets result (spec.HasItems value.now) }
{
    match value {
        Value::Text(text) => items_of_text(alloc, text.as_str()),
        Value::Objects(objects) => items_of_objects(alloc, objects),
    }
}

/// Adds texts to others. The one error is want of memory.
fn add_texts(alloc: Global, all: &mut List<Text>, texts: &[Text]) -> Result<(), NoMemory>
    ensures { OnOk result (all.new ≡ all.old ++ texts.now) }
{
    for text in texts {
        let text = text.copy(alloc)?;
        all.push(text)?;
    }
    Ok(())
}

/// Adds the items of a text to others. Refused as `list_items` refuses.
#[tactic(auto, using(crate::proofs::ListRuns::items_added, crate::proofs::ListRuns::items_refused))]
fn add_items(alloc: Global, all: &mut List<Text>, text: &Text) -> Result<(), Stop<TclKind>>
    ensures { Meets result (λ given. AddsItems text.now all.old given all.new) }
{
    let items = list_items(alloc, text.as_str())?;
    add_texts(alloc, all, items.as_slice())?;
    Ok(())
}

/// The items of all texts, in order. Refused as `list_items` refuses the first that it refuses.
#[tactic(auto, using(crate::proofs::ListRuns::no_text_read, crate::proofs::ListRuns::text_read, crate::proofs::ListRuns::text_refused, crate::proofs::ListRuns::texts_read))]
pub fn all_items(alloc: Global, texts: &[Text]) -> Result<List<Text>, Stop<TclKind>>
    ensures { Meets result (spec.HaveItems texts.now) }
{
    let mut items = List::new(alloc);
    for text in texts {
        add_items(alloc, &mut items, text)?;
    }
    Ok(items)
}

/// Adds objects to others. The one error is want of memory.
fn add_objects(all: &mut List<Object>, objects: &[Object]) -> Result<(), NoMemory>
    ensures { OnOk result (all.new ≡ all.old ++ objects.now) }
{
    for object in objects {
        all.push(*object)?;
    }
    Ok(())
}

/// The objects of values that are lists of objects alone, one at least; `None` where they are not. The one error is
/// want of memory.
#[tactic(auto, using(crate::proofs::ListRuns::joined_all, crate::proofs::ListRuns::joined_none, crate::proofs::ListRuns::objects_joined, crate::proofs::ListRuns::text_between, crate::proofs::ListRuns::all_joined))]
pub fn joined_objects(alloc: Global, values: &[Value]) -> Result<Option<List<Object>>, NoMemory>
    ensures { IfOk result (λ objects. objects ≡ spec.joined_objects values.now) }
{
    if values.is_empty() {
        return Ok(None);
    }
    let mut all = List::new(alloc);
    for value in values {
        let Value::Objects(objects) = value else {
            return Ok(None);
        };
        add_objects(&mut all, objects.as_slice())?;
    }
    Ok(Some(all))
}
