//! The built-in named references: the 252 names of HTML 4 and 44 names of HTML 5.
ghost use Rattle.std.specs.Prelude.{◌≡◌, ◌<◌, [], IfSome, length, map, slice_index_or};
ghost use Rattle.std.specs.Option.{option_copied};
ghost use Rattle.definition_inline.specs.BuiltinReferences.{builtin_names};
ghost use Rattle.inline_references.specs.Groups.{group_of, text_in_row, text_in_group};

/// The rows of the names that begin with each letter, `A` to `Z` and then `a` to `z`: a name, `=`,
/// its text, and a space between rows.
static GROUPS: [&str; 52] = [
    "AElig=Æ AMP=& Aacute=Á Acirc=Â Agrave=À Alpha=Α Aring=Å Atilde=Ã Auml=Ä",
    "Beta=Β",
    "COPY=© Ccedil=Ç Chi=Χ ClockwiseContourIntegral=∲",
    "Dagger=‡ Dcaron=Ď Delta=Δ DifferentialD=ⅆ",
    "ETH=Ð Eacute=É Ecirc=Ê Egrave=È Epsilon=Ε Eta=Η Euml=Ë",
    "",
    "GT=> Gamma=Γ",
    "Hat=^ HilbertSpace=ℋ",
    "Iacute=Í Icirc=Î Igrave=Ì Iota=Ι Iuml=Ï",
    "",
    "Kappa=Κ",
    "LT=< Lambda=Λ",
    "Mu=Μ",
    "NewLine=\n Ntilde=Ñ Nu=Ν",
    "OElig=Œ Oacute=Ó Ocirc=Ô Ograve=Ò Omega=Ω Omicron=Ο Oslash=Ø Otilde=Õ Ouml=Ö",
    "Phi=Φ Pi=Π Prime=″ Psi=Ψ",
    "QUOT=\"",
    "REG=® Rho=Ρ",
    "Scaron=Š Sigma=Σ",
    "THORN=Þ Tab=\t Tau=Τ Theta=Θ",
    "Uacute=Ú Ucirc=Û Ugrave=Ù Upsilon=Υ Uuml=Ü",
    "",
    "",
    "Xi=Ξ",
    "Yacute=Ý Yuml=Ÿ",
    "Zeta=Ζ",
    "aacute=á acirc=â acute=´ aelig=æ agrave=à alefsym=ℵ alpha=α amp=& and=∧ ang=∠ apos=' \
     aring=å ast=* asymp=≈ atilde=ã auml=ä",
    "bdquo=„ beta=β brvbar=¦ bsol=\\ bull=•",
    "cap=∩ ccedil=ç cedil=¸ cent=¢ chi=χ circ=ˆ clubs=♣ colon=: comma=, commat=@ cong=≅ \
     copy=© crarr=↵ cup=∪ curren=¤",
    "dArr=⇓ dagger=† darr=↓ deg=° delta=δ diams=♦ divide=÷ dollar=$",
    "eacute=é ecirc=ê egrave=è empty=∅ emsp=\u{2003} ensp=\u{2002} epsilon=ε equals== \
     equiv=≡ eta=η eth=ð euml=ë euro=€ excl=! exist=∃",
    "fnof=ƒ forall=∀ frac12=½ frac14=¼ frac34=¾ frasl=⁄",
    "gamma=γ ge=≥ grave=` gt=>",
    "hArr=⇔ harr=↔ hearts=♥ hellip=…",
    "iacute=í icirc=î iexcl=¡ igrave=ì image=ℑ infin=∞ int=∫ iota=ι iquest=¿ isin=∈ iuml=ï",
    "",
    "kappa=κ",
    "lArr=⇐ lambda=λ lang=⟨ laquo=« larr=← lbrace={ lbrack=[ lceil=⌈ lcub={ ldquo=“ le=≤ \
     lfloor=⌊ lowast=∗ lowbar=_ loz=◊ lpar=( lrm=\u{200E} lsaquo=‹ lsqb=[ lsquo=‘ lt=<",
    "macr=¯ mdash=— micro=µ middot=· minus=− mu=μ",
    "nabla=∇ nbsp=\u{A0} ndash=– ne=≠ ngE=≧\u{338} ni=∋ not=¬ notin=∉ nsub=⊄ ntilde=ñ \
     nu=ν num=#",
    "oacute=ó ocirc=ô oelig=œ ograve=ò oline=‾ omega=ω omicron=ο oplus=⊕ or=∨ ordf=ª \
     ordm=º oslash=ø otilde=õ otimes=⊗ ouml=ö",
    "para=¶ part=∂ percnt=% period=. permil=‰ perp=⊥ phi=φ pi=π piv=ϖ plus=+ plusmn=± \
     pound=£ prime=′ prod=∏ prop=∝ psi=ψ",
    "quest=? quot=\"",
    "rArr=⇒ radic=√ rang=⟩ raquo=» rarr=→ rbrace=} rbrack=] rceil=⌉ rcub=} rdquo=” real=ℜ \
     reg=® rfloor=⌋ rho=ρ rlm=\u{200F} rpar=) rsaquo=› rsqb=] rsquo=’",
    "sbquo=‚ scaron=š sdot=⋅ sect=§ semi=; shy=\u{AD} sigma=σ sigmaf=ς sim=∼ sol=/ \
     spades=♠ sub=⊂ sube=⊆ sum=∑ sup=⊃ sup1=¹ sup2=² sup3=³ supe=⊇ szlig=ß",
    "tau=τ there4=∴ theta=θ thetasym=ϑ thinsp=\u{2009} thorn=þ tilde=˜ times=× trade=™",
    "uArr=⇑ uacute=ú uarr=↑ ucirc=û ugrave=ù uml=¨ upsih=ϒ upsilon=υ uuml=ü",
    "verbar=| vert=|",
    "weierp=℘",
    "xi=ξ",
    "yacute=ý yen=¥ yuml=ÿ",
    "zeta=ζ zwj=\u{200D} zwnj=\u{200C}",
];

/// Returns the text of a built-in name (CommonMark 2.5).
pub fn builtin_reference(name: &str) -> Option<&'static str>
    ensures { option_copied result ≡ builtin_names name.now }
{
    let place = group_of(name)?;
    find_text(rows_of(place), name)
}

/// The place of the group that a name is in, if it begins with a letter.
fn group_of(name: &str) -> Option<usize>
    ensures place { result ≡ group_of name.now }
    ensures within { IfSome result (λ place. place < 52) }
{
    let letter = name.as_bytes().first()?;
    match *letter {
        b'A'..=b'Z' => Some(usize::from(*letter - b'A')),
        b'a'..=b'z' => Some(usize::from(*letter - b'a') + 26),
        _ => None,
    }
}

/// The rows of a group.
fn rows_of(place: usize) -> &'static str
    requires { place < 52 }
    ensures { result.now ≡ slice_index_or (map (λ rows. rows.now) GROUPS) place [] }
{
    text_at(&GROUPS, place)
}

fn text_at(texts: &[&'static str], place: usize) -> &'static str
    requires { place < length texts.now }
    ensures { result.now ≡ slice_index_or (map (λ text. text.now) texts.now) place [] }
{
    texts[place]
}

/// The text of a name in a group of rows.
fn find_text<'a>(rows: &'a str, name: &str) -> Option<&'a str>
    ensures { option_copied result ≡ text_in_group rows.now name.now }
{
    let row = rows
        .split(' ')
        .find(|row| text_in_row(row, name).is_some())?;
    text_in_row(row, name)
}

/// The text of a row, if it is this name's.
fn text_in_row<'a>(row: &'a str, name: &str) -> Option<&'a str>
    ensures { option_copied result ≡ text_in_row row.now name.now }
{
    match row.split_once('=') {
        Some((row_name, text)) if row_name == name => Some(text),
        _ => None,
    }
}
