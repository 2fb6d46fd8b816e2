//! What a token is to the grammar: one bare enum, so that a parser compares signs and no texts.

ghost use Rattle.std.specs.Prelude.{◌≡◌};
ghost use Rattle.psc_lex.specs.Signs as spec;

/// What a token is to the grammar, computed once for each token.
#[derive(Clone, Copy, Debug, PartialEq, Eq)]
pub enum Sign {
    /// A lower name that is no keyword, and neither `forall`, `as` nor `hiding`.
    Lower,
    /// `M.x`
    QualifiedLower,
    Upper,
    /// `M.X`
    QualifiedUpper,
    Integer,
    /// An integer directly before `.` and a digit, or directly before `e`: the start of a number
    /// that this language does not have.
    Decimal,
    Str,
    Character,
    /// An operator that is none of those below.
    Operator,
    /// `M.+`
    QualifiedOperator,
    /// `M.(+)`
    QualifiedParenthesized,
    /// `M.do` or `M.ado`
    QualifiedDo,
    /// Any other keyword or reserved operator behind a module's name, as `M.where` or `M.->`.
    QualifiedReserved,
    /// `-`
    Minus,
    /// `:`
    Colon,
    /// `<=`
    LessEqual,
    /// `..`
    DotDot,
    /// `::` or `∷`
    DoubleColon,
    /// `=`
    Equals,
    /// `->` or `→`
    Arrow,
    /// `<-` or `←`
    LeftArrow,
    /// `=>` or `⇒`
    FatArrow,
    /// `|`
    Bar,
    /// `.`
    Dot,
    /// `\`
    Backslash,
    /// `@`
    At,
    /// `@` behind a blank and directly before a character that is none: the mark of a type that is applied.
    VisibleAt,
    /// `?` directly before a letter: the mark of a typed hole
    Hole,
    Tick,
    Comma,
    LeftParen,
    RightParen,
    LeftBracket,
    RightBracket,
    LeftBrace,
    RightBrace,
    Underscore,
    /// `forall` or `∀`, which may be a name too
    Forall,
    /// `as`, which may be a name too
    As,
    /// `hiding`, which may be a name too
    Hiding,
    Module,
    Where,
    Import,
    Data,
    XType,
    Newtype,
    Class,
    Instance,
    Derive,
    Foreign,
    Infix,
    Infixl,
    Infixr,
    Let,
    In,
    Do,
    Ado,
    Case,
    Of,
    If,
    Then,
    Else,
    True,
    False,
    /// A keyword that is a label and nothing else.
    LabelKeyword,
    /// A character that begins no token.
    Wrong,
}

impl Sign {
    /// Whether a lower name without a module stands here.
    pub fn is_lower(self) -> bool {
        matches!(self, Sign::Lower | Sign::Forall | Sign::As | Sign::Hiding)
    }

    /// Whether an upper name with or without a module stands here.
    pub fn is_upper(self) -> bool {
        matches!(self, Sign::Upper | Sign::QualifiedUpper)
    }

    /// Whether an operator without a module stands here that is not reserved.
    pub fn is_plain_operator(self) -> bool {
        matches!(
            self,
            Sign::Operator | Sign::Minus | Sign::Colon | Sign::LessEqual | Sign::DotDot
        )
    }

    /// Whether an operator stands here that is not reserved, with or without a module.
    pub fn is_operator(self) -> bool {
        self == Sign::QualifiedOperator || self.is_plain_operator()
    }

    /// Whether a keyword stands here, a label or not.
    #[tactic(auto, unfolding(crate::specs::Signs::is_keyword, crate::specs::Signs::is_label_keyword))]
    pub fn is_keyword(self) -> bool
        ensures { result ≡ spec.is_keyword self }
    {
        matches!(self, Sign::LabelKeyword)
            || self.is_declaration_keyword()
            || self.is_expression_keyword()
    }

    /// Whether a label may stand here: a lower name, a keyword or a string.
    pub fn is_label(self) -> bool {
        self == Sign::Str || self.is_lower() || self.is_keyword()
    }

    #[tactic(auto, unfolding(crate::specs::Signs::is_declaration_keyword))]
    fn is_declaration_keyword(self) -> bool
        ensures { result ≡ spec.is_declaration_keyword self }
    {
        matches!(
            self,
            Sign::Module
                | Sign::Where
                | Sign::Import
                | Sign::Data
                | Sign::XType
                | Sign::Newtype
                | Sign::Class
                | Sign::Instance
                | Sign::Derive
                | Sign::Foreign
                | Sign::Infix
                | Sign::Infixl
                | Sign::Infixr
        )
    }

    #[tactic(auto, unfolding(crate::specs::Signs::is_expression_keyword))]
    fn is_expression_keyword(self) -> bool
        ensures { result ≡ spec.is_expression_keyword self }
    {
        matches!(
            self,
            Sign::Let
                | Sign::In
                | Sign::Do
                | Sign::Ado
                | Sign::Case
                | Sign::Of
                | Sign::If
                | Sign::Then
                | Sign::Else
                | Sign::True
                | Sign::False
        )
    }
}
