//! Completions for bash: the names of the commands, the options of each, and files.

ghost use Rattle.std.specs.Prelude.{◌≡◌, fold, OnOk};
ghost use Rattle.manual.specs.Pages.{bash_case, bash_option, bash_page, bash_word};

use crate::texts::put;
use command_line::{ArgumentText, CommandText, HelpTable};
use memory::NoMemory;
use std::alloc::Allocator;

/// The names of the commands.
fn put_words<A: Allocator>(commands: &[CommandText], page: &mut Vec<u8, A>) -> Result<(), NoMemory>
    ensures { OnOk result (page.new.items ≡ fold bash_word page.old.items commands.now) }
{
    for command in commands {
        put(command.name, page)?;
        put(" ", page)?;
    }
    Ok(())
}

/// The options of a command.
fn put_options<A: Allocator>(
    arguments: &[ArgumentText],
    page: &mut Vec<u8, A>,
) -> Result<(), NoMemory>
    ensures { OnOk result (page.new.items ≡ fold bash_option page.old.items arguments.now) }
{
    for argument in arguments {
        put(argument.dashes, page)?;
        put(argument.name, page)?;
        put(" ", page)?;
    }
    Ok(())
}

/// The case of a command.
fn put_case<A: Allocator>(command: &CommandText, page: &mut Vec<u8, A>) -> Result<(), NoMemory>
    ensures { OnOk result (page.new.items ≡ bash_case page.old.items command.now) }
{
    put("        ", page)?;
    put(command.name, page)?;
    put(") options='", page)?;
    put_options(command.arguments, page)?;
    put("--help' ;;\n", page)
}

/// The cases of the commands.
fn put_cases<A: Allocator>(commands: &[CommandText], page: &mut Vec<u8, A>) -> Result<(), NoMemory>
    ensures { OnOk result (page.new.items ≡ fold bash_case page.old.items commands.now) }
{
    for command in commands {
        put_case(command, page)?;
    }
    Ok(())
}

/// The completions of a table of help.
pub(crate) fn put_bash<A: Allocator>(
    table: &HelpTable,
    page: &mut Vec<u8, A>,
) -> Result<(), NoMemory>
    ensures { OnOk result (page.new.items ≡ bash_page page.old.items table.now) }
{
    put(
        "_landmap() {\n    local word=${COMP_WORDS[COMP_CWORD]} options=\n    if [ \"$COMP_CWORD\" = 1 ]; then\n        COMPREPLY=($(compgen -W '",
        page,
    )?;
    put_words(&table.commands, page)?;
    put(
        "help --help' -- \"$word\"))\n        return\n    fi\n    case ${COMP_WORDS[1]} in\n",
        page,
    )?;
    put_cases(&table.commands, page)?;
    put(
        "    esac\n    case $word in\n        -*) COMPREPLY=($(compgen -W \"$options\" -- \"$word\")) ;;\n        *) COMPREPLY=($(compgen -f -- \"$word\")) ;;\n    esac\n}\ncomplete -o filenames -F _landmap landmap\n",
        page,
    )
}
