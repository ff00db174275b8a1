//! The elements and the attributes of a page, and the signs that ASCII lacks.

ghost use Rattle.std.specs.Prelude.{◌≡◌};
ghost use Rattle.page_text.specs.Names.{attribute_name, sign_number, tag_name};

/// An element of HTML or SVG that a page can have. A variant is named after its element. None of these elements runs or loads anything.
#[derive(Clone, Copy, Debug, PartialEq, Eq)]
pub enum Tag {
    A,
    Body,
    Code,
    Dd,
    Desc,
    Details,
    Div,
    Dl,
    Dt,
    G,
    H1,
    H2,
    Header,
    Html,
    Li,
    Main,
    Nav,
    P,
    Path,
    Pre,
    Rect,
    Section,
    Span,
    Strong,
    Summary,
    Svg,
    Table,
    Tbody,
    Td,
    Text,
    Th,
    Thead,
    Title,
    Tr,
    Ul,
}

/// An attribute that an element can have. A variant is named after its attribute. None of these attributes runs or loads anything.
#[derive(Clone, Copy, Debug, PartialEq, Eq)]
pub enum Attribute {
    AriaHidden,
    AriaLabel,
    AriaLabelledby,
    Class,
    D,
    DataNode,
    DataSeq,
    Height,
    Id,
    Open,
    PreserveAspectRatio,
    Role,
    Rx,
    Scope,
    Tabindex,
    Transform,
    ViewBox,
    Width,
    X,
    Y,
}

/// A sign that ASCII lacks. It stands in a page as a reference to its character.
#[derive(Clone, Copy, Debug, PartialEq, Eq)]
pub enum Sign {
    /// A check mark, which is the character 10003.
    Check,
    /// Three dots at half the height of a line, which are the character 8943.
    Dots,
}

impl Tag {
    /// The element's name.
    #[tactic(auto, unfolding(crate::specs::Names::tag_name))]
    pub(crate) fn name(self) -> &'static str
        ensures { result.now ≡ tag_name self }
    {
        match self {
            Tag::A => "a",
            Tag::Body => "body",
            Tag::Code => "code",
            Tag::Dd => "dd",
            Tag::Desc => "desc",
            Tag::Details => "details",
            Tag::Div => "div",
            Tag::Dl => "dl",
            Tag::Dt => "dt",
            Tag::G => "g",
            Tag::H1 => "h1",
            Tag::H2 => "h2",
            Tag::Header => "header",
            Tag::Html => "html",
            Tag::Li => "li",
            Tag::Main => "main",
            Tag::Nav => "nav",
            Tag::P => "p",
            Tag::Path => "path",
            Tag::Pre => "pre",
            Tag::Rect => "rect",
            Tag::Section => "section",
            Tag::Span => "span",
            Tag::Strong => "strong",
            Tag::Summary => "summary",
            Tag::Svg => "svg",
            Tag::Table => "table",
            Tag::Tbody => "tbody",
            Tag::Td => "td",
            Tag::Text => "text",
            Tag::Th => "th",
            Tag::Thead => "thead",
            Tag::Title => "title",
            Tag::Tr => "tr",
            Tag::Ul => "ul",
        }
    }
}

impl Attribute {
    /// The attribute's name.
    #[tactic(auto, unfolding(crate::specs::Names::attribute_name))]
    pub(crate) fn name(self) -> &'static str
        ensures { result.now ≡ attribute_name self }
    {
        match self {
            Attribute::AriaHidden => "aria-hidden",
            Attribute::AriaLabel => "aria-label",
            Attribute::AriaLabelledby => "aria-labelledby",
            Attribute::Class => "class",
            Attribute::D => "d",
            Attribute::DataNode => "data-node",
            Attribute::DataSeq => "data-seq",
            Attribute::Height => "height",
            Attribute::Id => "id",
            Attribute::Open => "open",
            Attribute::PreserveAspectRatio => "preserveAspectRatio",
            Attribute::Role => "role",
            Attribute::Rx => "rx",
            Attribute::Scope => "scope",
            Attribute::Tabindex => "tabindex",
            Attribute::Transform => "transform",
            Attribute::ViewBox => "viewBox",
            Attribute::Width => "width",
            Attribute::X => "x",
            Attribute::Y => "y",
        }
    }
}

impl Sign {
    /// The number of the sign's character.
    pub(crate) fn number(self) -> u64
        ensures { result ≡ sign_number self }
    {
        match self {
            Sign::Check => 10003,
            Sign::Dots => 8943,
        }
    }
}
