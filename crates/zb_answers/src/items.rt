//! The items of a tree as an answer shows them.

ghost use Rattle.std.specs.Prelude.{◌≡◌, ◌++◌, OnOk};
ghost use Rattle.zb_answers.specs.Items.{item_text, items_text, items_within, more_items, value_behind};

use crate::keys::push_key_literal;
use crate::objects::push_key;
use btree_family::Item;
use std::alloc::AllocError;
use zb_ids::Text8;

fn push_value(out: &mut Vec<u8>, value: &Option<Text8>) -> Result<(), AllocError>
    ensures { OnOk result (out.new.items ≡ out.old.items ++ value_behind value.now) }
{
    match value {
        Some(value) => {
            out.push(b':')?;
            push_key(out, value.as_slice())
        }
        None => Ok(()),
    }
}

fn push_item(out: &mut Vec<u8>, item: &Item, is_set: bool) -> Result<(), AllocError>
    ensures { OnOk result (out.new.items ≡ out.old.items ++ item_text is_set item.now) }
{
    push_key_literal(out, &item.key)?;
    if is_set {
        return Ok(());
    }
    push_value(out, &item.value)
}

/// Puts further items at the end, each behind a comma.
fn push_more(out: &mut Vec<u8>, items: &[Item], is_set: bool) -> Result<(), AllocError>
    ensures { OnOk result (out.new.items ≡ out.old.items ++ more_items is_set items.now) }
{
    for item in items {
        out.push(b',')?;
        push_item(out, item, is_set)?;
    }
    Ok(())
}

fn push_within(out: &mut Vec<u8>, items: &[Item], is_set: bool) -> Result<(), AllocError>
    ensures { OnOk result (out.new.items ≡ out.old.items ++ items_within is_set items.now) }
{
    match items.split_first() {
        Some((first, others)) => {
            push_item(out, first, is_set)?;
            push_more(out, others, is_set)
        }
        None => Ok(()),
    }
}

/// Puts items at the end: the keys of a set within `[` and `]`, and the keys and values of a mapping within
/// `{` and `}`.
pub(crate) fn push_item_list(
    out: &mut Vec<u8>,
    items: &[Item],
    is_set: bool,
) -> Result<(), AllocError>
    ensures { OnOk result (out.new.items ≡ out.old.items ++ items_text is_set items.now) }
{
    let (opening, closing) = if is_set { (b'[', b']') } else { (b'{', b'}') };
    out.push(opening)?;
    push_within(out, items, is_set)?;
    out.push(closing)?;
    Ok(())
}
