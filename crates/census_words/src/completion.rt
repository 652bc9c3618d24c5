//! How shells complete the words of a command line, made from the table of the commands.

use crate::table::{Chapter, CommandRow};
use crate::words::{self, Choice, Takes};
use std::alloc::AllocError;

/// A shell that completes words.
#[derive(Clone, Copy)]
pub enum Shell {
    Bash,
    Zsh,
    Fish,
}

impl Shell {
    /// The shell of this name, where it is one of them.
    pub fn named(name: &str) -> Option<Shell> {
        match name {
            "bash" => Some(Shell::Bash),
            "zsh" => Some(Shell::Zsh),
            "fish" => Some(Shell::Fish),
            _ => None,
        }
    }
}

/// Appends the completions of these commands for a shell. The names of faults, with blanks between, complete the words of a
/// command that takes faults.
pub fn append_completions(
    text: &mut String,
    shell: Shell,
    chapters: &[Chapter],
    faults: &str,
) -> Result<(), AllocError> {
    match shell {
        Shell::Bash => append_bash(text, chapters, faults),
        Shell::Zsh => append_zsh(text, chapters, faults),
        Shell::Fish => append_fish(text, chapters, faults),
    }
}

// The names of the shells.
const SHELLS: &str = "bash zsh fish";

// The words that a command takes, where these are known: names of faults or of shells.
fn known_words<'a>(row: &CommandRow, faults: &'a str) -> Option<&'a str> {
    for word in row.words {
        if word.name == words::FAULT.name {
            return Some(faults);
        }
        if word.name == words::SHELL.name {
            return Some(SHELLS);
        }
    }
    None
}

// What stands before the commands, for bash.
const BASH_FRONT: &str =
    r#"# Completions of census for bash, as `census completion bash` prints them.
_census() {
  local command= options= known= word
  for word in "${COMP_WORDS[@]:1:COMP_CWORD-1}"; do
    case $word in
    -*) ;;
    *) command=$word && break ;;
    esac
  done
  case $command in
"#;

// And behind them.
const BASH_BACK: &str = r#"  esac
  word=${COMP_WORDS[COMP_CWORD]}
  if [[ -z $command || $word == -* ]]; then
    COMPREPLY=($(compgen -W "$options" -- "$word"))
  elif [[ -n $known ]]; then
    COMPREPLY=($(compgen -W "$known" -- "$word"))
  fi
}
complete -o default -F _census census
"#;

// The options that stand with every command, and without one.
const EVERYWHERE: &str = "--explain --help";

fn append_bash(text: &mut String, chapters: &[Chapter], faults: &str) -> Result<(), AllocError> {
    text.push_str(BASH_FRONT)?;
    text.push_str("  '') options='")?;
    for chapter in chapters {
        for row in chapter.rows {
            text.push_str(row.name)?;
            text.push_str(" ")?;
        }
    }
    append_all(text, &[EVERYWHERE, " --version' ;;\n"])?;
    for chapter in chapters {
        for row in chapter.rows {
            append_bash_row(text, row, faults)?;
        }
    }
    text.push_str(BASH_BACK)
}

// The options of a command and the words that it is known to take, for bash.
fn append_bash_row(text: &mut String, row: &CommandRow, faults: &str) -> Result<(), AllocError> {
    append_all(text, &["  ", row.name, ") options='"])?;
    for word in row.words {
        for option in word.times.instead() {
            append_all(text, &["--", option.name, " "])?;
        }
    }
    for option in row.options {
        append_all(text, &["--", option.name, " "])?;
    }
    text.push_str(EVERYWHERE)?;
    if let Some(known) = known_words(row, faults) {
        text.push_str("' known='")?;
        text.push_str(known)?;
    }
    text.push_str("' ;;\n")
}

// What stands before the commands, for zsh.
const ZSH_FRONT: &str = r#"#compdef census
# Completions of census for zsh, as `census completion zsh` prints them.
_census() {
  local -a commands options
  local behind='*:file:_files'
  commands=(
"#;

// Between the commands and their options.
const ZSH_MIDDLE: &str = r#"  )
  if ((CURRENT == 2)); then
    _describe command commands
    return
  fi
  case $words[2] in
"#;

// And behind them.
const ZSH_BACK: &str = r#"  esac
  _arguments $options '--explain[Says more on standard error]' '--help[Prints help]' $behind
}
if [[ ${funcstack[1]} = _census ]]; then
  _census "$@"
else
  (( $+functions[compdef] )) || { autoload -Uz compinit && compinit -i }
  compdef _census census
fi
"#;

fn append_zsh(text: &mut String, chapters: &[Chapter], faults: &str) -> Result<(), AllocError> {
    text.push_str(ZSH_FRONT)?;
    for chapter in chapters {
        for row in chapter.rows {
            append_all(text, &["    '", row.name, ":"])?;
            append_quoted(text, row.line, "'\\''")?;
            text.push_str("'\n")?;
        }
    }
    text.push_str(ZSH_MIDDLE)?;
    for chapter in chapters {
        for row in chapter.rows {
            append_zsh_row(text, row, faults)?;
        }
    }
    text.push_str(ZSH_BACK)
}

// The options of a command and the words that it is known to take, for zsh.
fn append_zsh_row(text: &mut String, row: &CommandRow, faults: &str) -> Result<(), AllocError> {
    append_all(text, &["  ", row.name, ") options=("])?;
    for word in row.words {
        for option in word.times.instead() {
            append_zsh_option(text, *option)?;
        }
    }
    for option in row.options {
        append_zsh_option(text, *option)?;
    }
    text.push_str(")")?;
    if let Some(known) = known_words(row, faults) {
        text.push_str(" behind='*:word:(")?;
        text.push_str(known)?;
        text.push_str(")'")?;
    }
    text.push_str(" ;;\n")
}

// An option, for zsh.
fn append_zsh_option(text: &mut String, option: Choice) -> Result<(), AllocError> {
    let (often, value) = match option.takes {
        Takes::Nothing => ("", None),
        Takes::One(value) => ("", Some(value)),
        Takes::Many(value) => ("*", Some(value)),
    };
    append_all(text, &["'", often, "--", option.name, "["])?;
    append_quoted(text, option.meaning, "'\\''")?;
    text.push_str("]")?;
    if let Some(value) = value {
        append_all(text, &[":", value, ":"])?;
    }
    text.push_str("' ")
}

// What stands before the commands, for fish.
const FISH_FRONT: &str =
    r#"# Completions of census for fish, as `census completion fish` prints them.
complete -c census -l explain -d 'Says more on standard error'
complete -c census -l help -d 'Prints help'
"#;

fn append_fish(text: &mut String, chapters: &[Chapter], faults: &str) -> Result<(), AllocError> {
    text.push_str(FISH_FRONT)?;
    for chapter in chapters {
        for row in chapter.rows {
            append_fish_row(text, row, faults)?;
        }
    }
    Ok(())
}

// A command, its options and the words that it is known to take, for fish.
fn append_fish_row(text: &mut String, row: &CommandRow, faults: &str) -> Result<(), AllocError> {
    let front = "complete -c census -f -n __fish_use_subcommand -a ";
    append_all(text, &[front, row.name, " -d '"])?;
    append_quoted(text, row.line, "\\'")?;
    text.push_str("'\n")?;
    for word in row.words {
        for option in word.times.instead() {
            append_fish_option(text, row.name, *option)?;
        }
    }
    for option in row.options {
        append_fish_option(text, row.name, *option)?;
    }
    if let Some(known) = known_words(row, faults) {
        let front = "complete -c census -f -n '__fish_seen_subcommand_from ";
        append_all(text, &[front, row.name, "' -a '"])?;
        text.push_str(known)?;
        text.push_str("'\n")?;
    }
    Ok(())
}

// An option of a command, for fish.
fn append_fish_option(text: &mut String, command: &str, option: Choice) -> Result<(), AllocError> {
    let front = "complete -c census -n '__fish_seen_subcommand_from ";
    let value = match option.takes {
        Takes::Nothing => "",
        Takes::One(_) | Takes::Many(_) => " -r",
    };
    text.push_str(front)?;
    text.push_str(command)?;
    append_all(text, &["' -l ", option.name, value, " -d '"])?;
    append_quoted(text, option.meaning, "\\'")?;
    text.push_str("'\n")
}

// Appends the texts.
fn append_all(text: &mut String, parts: &[&str]) -> Result<(), AllocError> {
    for part in parts {
        text.push_str(part)?;
    }
    Ok(())
}

// Appends words that stand between quotes, with this in place of a quote.
fn append_quoted(text: &mut String, words: &str, quote: &str) -> Result<(), AllocError> {
    for sign in words.chars() {
        if sign == '\'' {
            text.push_str(quote)?;
        } else {
            text.push(sign)?;
        }
    }
    Ok(())
}
