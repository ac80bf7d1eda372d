//! Blocks that wait in limbo, each under a descriptor, in lists with reserved room.
ghost use Rattle.std.specs.Prelude.{◌≡◌, ◌==◌, ◌+◌, ◌<◌, ◌≤◌, ◌++◌, vec_len, length, map, not};
ghost use Rattle.std.specs.List.{filter};
ghost use Rattle.std.specs.Vec.{vec_capacity};
ghost use Rattle.machine_states.specs.guard_core.specs.Moves.{is_unnamed};
ghost use Rattle.machine_states.specs.runner_parts.specs.Lists.{all_under};

use crate::reserved::is_unnamed;
use machine_states::runner_parts::Waiting;

/// These blocks are added to the list, each under this descriptor.
pub fn add_under(list: &mut Vec<Waiting>, blocks: &[u32], descriptor: u32)
    requires { vec_len list.old + length blocks.now ≤ vec_capacity list.old }
    ensures items { list.new.items ≡ list.old.items ++ all_under descriptor blocks.now }
    ensures room { vec_capacity list.new ≡ vec_capacity list.old }
{
    for block in blocks {
        list.push_reserved(Waiting {
            block: *block,
            descriptor,
        });
    }
}

/// The blocks under a descriptor that none of these guard words names are added to the list.
fn add_unnamed(list: &mut Vec<u32>, limbo: &[Waiting], words: &[u64])
    requires { vec_len list.old + length limbo.now ≤ vec_capacity list.old }
    ensures items { list.new.items ≡ list.old.items
        ++ map (λ x. x.block) (filter (λ x. is_unnamed words.now x.descriptor) limbo.now) }
    ensures room { vec_capacity list.new ≡ vec_capacity list.old }
{
    for waiting in limbo {
        if is_unnamed(words, waiting.descriptor) {
            list.push_reserved(waiting.block);
        }
    }
}

/// The blocks under a descriptor that none of these guard words names go from limbo into the list.
pub fn free_unnamed(list: &mut Vec<u32>, limbo: &mut Vec<Waiting>, words: &[u64])
    requires { vec_len list.old + vec_len limbo.old ≤ vec_capacity list.old }
    ensures list { list.new.items ≡ list.old.items
        ++ map (λ x. x.block) (filter (λ x. is_unnamed words.now x.descriptor) limbo.old.items) }
    ensures limbo { limbo.new.items ≡ filter (λ x. not (is_unnamed words.now x.descriptor)) limbo.old.items }
    ensures sum { vec_len list.new + vec_len limbo.new ≡ vec_len list.old + vec_len limbo.old }
    ensures room { vec_capacity list.new ≡ vec_capacity list.old }
    ensures limbo_room { vec_capacity limbo.new ≡ vec_capacity limbo.old }
{
    add_unnamed(list, limbo, words);
    limbo.retain(|x| !is_unnamed(words, x.descriptor));
}

/// The blocks under this descriptor are added to the list.
fn add_from(list: &mut Vec<u32>, limbo: &[Waiting], descriptor: u32)
    requires { vec_len list.old + length limbo.now ≤ vec_capacity list.old }
    ensures items { list.new.items ≡ list.old.items
        ++ map (λ x. x.block) (filter (λ x. x.descriptor == descriptor) limbo.now) }
    ensures room { vec_capacity list.new ≡ vec_capacity list.old }
{
    for waiting in limbo {
        if waiting.descriptor == descriptor {
            list.push_reserved(waiting.block);
        }
    }
}

/// The blocks under this descriptor go from limbo into the list.
pub fn free_under(list: &mut Vec<u32>, limbo: &mut Vec<Waiting>, descriptor: u32)
    requires { vec_len list.old + vec_len limbo.old ≤ vec_capacity list.old }
    ensures list { list.new.items ≡ list.old.items
        ++ map (λ x. x.block) (filter (λ x. x.descriptor == descriptor) limbo.old.items) }
    ensures limbo { limbo.new.items ≡ filter (λ x. not (x.descriptor == descriptor)) limbo.old.items }
    ensures sum { vec_len list.new + vec_len limbo.new ≡ vec_len list.old + vec_len limbo.old }
    ensures room { vec_capacity list.new ≡ vec_capacity list.old }
    ensures limbo_room { vec_capacity limbo.new ≡ vec_capacity limbo.old }
{
    add_from(list, limbo, descriptor);
    limbo.retain(|x| !(x.descriptor == descriptor));
}
