//! The blocks of a configuration, in the order of their first lines.
ghost use Rattle.std.specs.Prelude.{◌≡◌, ◌∷◌, ◌++◌, [], find, map, option_map, slice_get, IfSome, None, OnOk};
ghost use Rattle.std.specs.Option.{option_copied};
ghost use Rattle.conf_directives.specs.Contents.{directive_content};
ghost use Rattle.conf_scopes.specs.ScopeContents.{scope_content};
ghost use Rattle.conf_text.specs.Contents.{block_content};
ghost use Rattle.conf_text.specs.Places.{is_named};
ghost use Rattle.conf_scopes.specs.Scopes.{scope_of};
ghost use Rattle.conf_scopes.specs.ScopeSteps.{FitsWords};
ghost use Rattle.conf_text.specs.Steps.{first_place, say_at};

use crate::block_name::BlockName;
use conf_directives::Directive;
use conf_scopes::Scope;
use indexmap::IndexMap;
use net_types::{Name, NoMemory};
use std::alloc::Global;

/// What the blocks of each interface say. Their names are hashed with a seed that is fixed (`FoldHasher`).
pub type Blocks = IndexMap<BlockName, Scope>;

/// The place of an interface's block.
pub fn place_of(blocks: &Blocks, name: &Name) -> Option<usize>
    ensures { result ≡ first_place (λ block. is_named name.now block.name) (map block_content blocks.now.entries) }
{
    blocks.get_index_of(&BlockName { name: *name })
}

/// What the blocks of an interface say, where it has some.
pub fn said_of<'a>(blocks: &'a Blocks, name: &Name) -> Option<&'a Scope>
    ensures { option_map scope_content (option_copied result)
        ≡ option_map (λ block. block.scope)
        (find (λ block. is_named name.now block.name) (map block_content blocks.now.entries)) }
{
    blocks.get(&BlockName { name: *name })
}

/// What the block of this place says.
pub fn said_at(blocks: &Blocks, place: usize) -> Option<&Scope>
    ensures { option_map scope_content (option_copied result)
        ≡ option_map (λ block. block.scope) (slice_get (map block_content blocks.now.entries) place) }
{
    let (_, scope) = blocks.get_index(place)?;
    Some(scope)
}

/// Begins the first block of an interface.
pub fn begin(alloc: Global, blocks: &mut Blocks, name: Name) -> Result<(), NoMemory>
    requires { first_place (λ block. is_named name block.name) (map block_content blocks.old.entries) ≡ None }
    ensures { OnOk result
        (map block_content blocks.new.entries
        ≡ map block_content blocks.old.entries ++ record { name = name; scope = scope_of [] } ∷ []) }
{
    blocks.insert(BlockName { name }, Scope::empty(alloc))?;
    Ok(())
}

/// Takes what one line more of a block says.
pub fn say_at(blocks: &mut Blocks, place: usize, directive: Directive) -> Result<(), NoMemory>
    requires { IfSome (slice_get (map block_content blocks.old.entries) place)
        (λ block. FitsWords block.scope (directive_content directive)) }
    ensures { OnOk result
        (map block_content blocks.new.entries
        ≡ say_at place (directive_content directive) (map block_content blocks.old.entries)) }
{
    if place < blocks.len() {
        blocks[place].say(directive)
    } else {
        Ok(())
    }
}
