//! Lists that grow in two steps: the first takes the memory and changes nothing that is seen, the second cannot fail.
ghost use Rattle.std.specs.Prelude.{◌≡◌, ◌+◌, ◌<◌, ◌++◌, ◌^◌, IfOk, OnOk, length};
ghost use Rattle.std.specs.Option.{option_to_list};
ghost use Rattle.std.specs.Vec.{vec_len, vec_capacity};

use smc_words::NoMemory;
use std::alloc::Global;
use std::collections::LinkedList;

/// Takes memory for one more element.
pub(crate) fn make_room<T: Drop>(list: &mut Vec<T>) -> Result<(), NoMemory>
    ensures items { list.new.items ≡ list.old.items }
    ensures room { OnOk result (vec_len list.new < vec_capacity list.new) }
{
    list.reserve(1)?;
    Ok(())
}

/// Puts an element, if there is one, behind the others.
pub(crate) fn add<T: Drop>(list: &mut Vec<T>, element: Option<T>)
    requires { vec_len list.old < vec_capacity list.old }
    ensures { list.new.items ≡ list.old.items ++ option_to_list element }
{
    if let Some(element) = element {
        match list.push(element) {
            Ok(()) => {}
            Err(_) => unreachable!(),
        }
    }
}

/// A list of the element, if there is one, that is to stand beside another list.
pub(crate) fn beside<T: Copy>(
    alloc: Global,
    list: &LinkedList<T>,
    element: Option<T>,
) -> Result<LinkedList<T>, NoMemory>
    ensures one { IfOk result (λ one. one ≡ option_to_list element) }
    ensures room { IfOk result (λ one. length list.now + length one < 2 ^ 63) }
{
    let length = list.len();
    let mut one = LinkedList::new(alloc);
    let Some(element) = element else {
        return Ok(one);
    };
    if length >= MOST {
        return Err(NoMemory);
    }
    one.push_back(element)?;
    Ok(one)
}

/// The longest list that one more element can be put to.
const MOST: usize = 9_223_372_036_854_775_806;

/// Puts `front` before the others.
pub(crate) fn put_before<T: Copy>(list: &mut LinkedList<T>, mut front: LinkedList<T>)
    requires { length list.old + length front < 2 ^ 63 }
    ensures { list.new ≡ front ++ list.old }
{
    match front.append(list) {
        Ok(()) => *list = front,
        Err(_) => unreachable!(),
    }
}

/// Puts `back` behind the others.
pub(crate) fn put_behind<T: Copy>(list: &mut LinkedList<T>, mut back: LinkedList<T>)
    requires { length list.old + length back < 2 ^ 63 }
    ensures { list.new ≡ list.old ++ back }
{
    match list.append(&mut back) {
        Ok(()) => {}
        Err(_) => unreachable!(),
    }
}
