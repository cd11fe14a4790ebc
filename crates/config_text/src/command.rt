//! The commands of the edit language.
ghost use Rattle.std.specs.Prelude.{◌≡◌, ◌≤◌, ◌&&◌, find, length};
ghost use Rattle.std.specs.Option.{option_copied};
ghost use Rattle.std.specs.Str.{bytes_eq};
ghost use Rattle.config_text.specs.Command.{command_from, grammar_of, is_noun};

use crate::operand::Form;

/// What an edit does, apart from its values.
#[derive(Clone, Copy)]
pub enum EditCommand {
    SubsystemAdd,
    SubsystemSet,
    SubsystemDel,
    NamespaceAdd,
    NamespaceSize,
    NamespaceGroup,
    NamespaceDel,
    NamespaceView,
    NamespaceShow,
    NamespaceHide,
    PortAdd,
    PortSet,
    PortDel,
    LinkAdd,
    LinkDel,
    HostAdd,
    HostDel,
    AllowAdd,
    AllowDel,
    AnaSet,
    ReferralAdd,
    ReferralSet,
    ReferralDel,
}

/// Each command once.
pub const COMMANDS: &[EditCommand] = &[
    EditCommand::SubsystemAdd,
    EditCommand::SubsystemSet,
    EditCommand::SubsystemDel,
    EditCommand::NamespaceAdd,
    EditCommand::NamespaceSize,
    EditCommand::NamespaceGroup,
    EditCommand::NamespaceDel,
    EditCommand::NamespaceView,
    EditCommand::NamespaceShow,
    EditCommand::NamespaceHide,
    EditCommand::PortAdd,
    EditCommand::PortSet,
    EditCommand::PortDel,
    EditCommand::LinkAdd,
    EditCommand::LinkDel,
    EditCommand::HostAdd,
    EditCommand::HostDel,
    EditCommand::AllowAdd,
    EditCommand::AllowDel,
    EditCommand::AnaSet,
    EditCommand::ReferralAdd,
    EditCommand::ReferralSet,
    EditCommand::ReferralDel,
];

impl EditCommand {
    /// The command that a line begins with, by its first two words.
    pub(crate) fn from_words(noun: &[u8], verb: &[u8]) -> Option<EditCommand>
        ensures { result ≡ command_from noun.now verb.now }
    {
        find_command(COMMANDS, noun, verb).copied()
    }

    /// The first word: what is edited.
    pub fn noun(self) -> &'static [u8]
        ensures { result.now ≡ (grammar_of self).noun }
    {
        match self {
            EditCommand::SubsystemAdd | EditCommand::SubsystemSet | EditCommand::SubsystemDel =>
                b"subsys",
            EditCommand::NamespaceAdd
            | EditCommand::NamespaceSize
            | EditCommand::NamespaceGroup
            | EditCommand::NamespaceDel
            | EditCommand::NamespaceView
            | EditCommand::NamespaceShow
            | EditCommand::NamespaceHide => b"ns",
            EditCommand::PortAdd | EditCommand::PortSet | EditCommand::PortDel => b"port",
            EditCommand::LinkAdd | EditCommand::LinkDel => b"link",
            EditCommand::HostAdd | EditCommand::HostDel => b"host",
            EditCommand::AllowAdd | EditCommand::AllowDel => b"allow",
            EditCommand::AnaSet => b"ana",
            EditCommand::ReferralAdd | EditCommand::ReferralSet | EditCommand::ReferralDel =>
                b"ref",
        }
    }

    /// The second word: what is done to it.
    pub fn verb(self) -> &'static [u8]
        ensures { result.now ≡ (grammar_of self).verb }
    {
        match self {
            EditCommand::SubsystemAdd
            | EditCommand::NamespaceAdd
            | EditCommand::PortAdd
            | EditCommand::LinkAdd
            | EditCommand::HostAdd
            | EditCommand::AllowAdd
            | EditCommand::ReferralAdd => b"add",
            EditCommand::SubsystemSet
            | EditCommand::PortSet
            | EditCommand::AnaSet
            | EditCommand::ReferralSet => b"set",
            EditCommand::SubsystemDel
            | EditCommand::NamespaceDel
            | EditCommand::PortDel
            | EditCommand::LinkDel
            | EditCommand::HostDel
            | EditCommand::AllowDel
            | EditCommand::ReferralDel => b"del",
            EditCommand::NamespaceSize => b"size",
            EditCommand::NamespaceGroup => b"group",
            EditCommand::NamespaceView => b"view",
            EditCommand::NamespaceShow => b"show",
            EditCommand::NamespaceHide => b"hide",
        }
    }

    /// What the words after these two have to be.
    pub(crate) fn forms(self) -> &'static [Form]
        ensures forms { result.now ≡ (grammar_of self).forms }
        ensures few { length result.now ≤ 7 }
    {
        match self {
            EditCommand::SubsystemAdd => &[Form::Name, Form::Text, Form::Access],
            EditCommand::SubsystemSet => &[Form::Name, Form::Access],
            EditCommand::NamespaceAdd => NAMESPACE,
            EditCommand::NamespaceSize | EditCommand::NamespaceGroup => {
                &[Form::Name, Form::Number, Form::Number]
            }
            EditCommand::NamespaceDel => &[Form::Name, Form::Number],
            EditCommand::NamespaceView => &[Form::Name, Form::Number, Form::Visibility],
            EditCommand::NamespaceShow | EditCommand::NamespaceHide => {
                &[Form::Name, Form::Number, Form::Name]
            }
            EditCommand::PortAdd
            | EditCommand::PortSet
            | EditCommand::ReferralAdd
            | EditCommand::ReferralSet => &[Form::Number, Form::Family, Form::Text, Form::Number],
            EditCommand::LinkAdd | EditCommand::LinkDel => &[Form::Number, Form::Name],
            EditCommand::AllowAdd | EditCommand::AllowDel => &[Form::Name, Form::Name],
            EditCommand::AnaSet => &[Form::Number, Form::Name, Form::Number, Form::State],
            EditCommand::PortDel | EditCommand::ReferralDel => &[Form::Number],
            EditCommand::SubsystemDel | EditCommand::HostAdd | EditCommand::HostDel => &[
                Form::Name,
            ],
        }
    }
}

// The subsystem, the identifier, the disk, the blocks, their size, the UUID and the group.
const NAMESPACE: &[Form] = &[
    Form::Name,
    Form::Number,
    Form::Number,
    Form::Number,
    Form::Number,
    Form::Uuid,
    Form::Number,
];

/// Whether a command begins with the word.
pub(crate) fn is_noun(word: &[u8]) -> bool
    ensures { result ≡ is_noun word.now }
{
    COMMANDS.iter().any(|command| command.noun() == word)
}

fn find_command<'a>(
    commands: &'a [EditCommand],
    noun: &[u8],
    verb: &[u8],
) -> Option<&'a EditCommand>
    ensures { option_copied result ≡ find
        (λ c. bytes_eq (grammar_of c).noun noun.now && bytes_eq (grammar_of c).verb verb.now)
        commands.now }
{
    commands
        .iter()
        .find(|command| command.noun() == noun && command.verb() == verb)
}
