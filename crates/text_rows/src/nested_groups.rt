//! A small grammar, worked out: items in groups, as in `;(;())`. It shows what a grammar gives and owes.

ghost use Rattle.std.specs.Prelude.{Some, None, true, false, ◌∷◌, [], refl};
ghost use Rattle.text_rows.specs.declared.nested_groups.Kind.TheVariants.{Open, Close, Semicolon};
ghost use Rattle.text_rows.specs.declared.nested_groups.Symbol.TheVariants.{Items, Closing};
ghost use Rattle.token_grammar.specs.Texts.{begins, done, skips};

use token_grammar::{Grammar, SyntaxError, first_error};

/// The tokens of nested groups.
#[derive(Clone, Copy, Debug)]
enum Kind {
    Open,
    Close,
    Semicolon,
}

/// What nested groups are made of.
#[derive(Clone, Copy, Debug)]
enum Symbol {
    /// Items, or nothing.
    Items,
    /// The end of a group.
    Closing,
}

/// Items are `;` with items after it, or `(`, items and `)` with items after them, or nothing.
struct Groups;

impl Grammar for Groups {
    type Symbol = Symbol;

    type Kind = Kind;

    ghost table = { record {
      next = elim [
        | Items ↦ elim [ Open ↦ Some (Items ∷ Closing ∷ Items ∷ []) | Close ↦ None | Semicolon ↦ Some (Items ∷ []) ]
        | Closing ↦ elim [ Open ↦ None | Close ↦ Some [] | Semicolon ↦ None ]
      ];
      nullable = elim [ Items ↦ true | Closing ↦ false ];
    } };

    ghost follow = { elim [ Items ↦ elim [ Open ↦ false | Close ↦ true | Semicolon ↦ false ] | Closing ↦ λ kind. true ] };

    fn next(symbol: Symbol, kind: Kind) -> Option<&'static [Symbol]> {
        match symbol {
            Symbol::Items => match kind {
                Kind::Open => Some(&[Symbol::Items, Symbol::Closing, Symbol::Items]),
                Kind::Semicolon => Some(&[Symbol::Items]),
                Kind::Close => None,
            },
            Symbol::Closing => match kind {
                Kind::Close => Some(&[]),
                Kind::Open | Kind::Semicolon => None,
            },
        }
    }

    fn is_nullable(symbol: Symbol) -> bool {
        matches!(symbol, Symbol::Items)
    }

    ghost decides = { record {
      productive = elim [ Items ↦ ([], skips refl done) | Closing ↦ (Close ∷ [], begins refl done) ];
      apart = elim [
        | Items ↦ elim [ Open ↦ refl | Close ↦ refl | Semicolon ↦ refl ]
        | Closing ↦ elim [ Open ↦ refl | Close ↦ refl | Semicolon ↦ refl ]
      ];
      covered = elim [
        | Items ↦ elim [
          | Open ↦ elim [ Open ↦ refl | Close ↦ refl | Semicolon ↦ refl ]
          | Close ↦ elim [ Open ↦ refl | Close ↦ refl | Semicolon ↦ refl ]
          | Semicolon ↦ elim [ Open ↦ refl | Close ↦ refl | Semicolon ↦ refl ]
        ]
        | Closing ↦ elim [
          | Open ↦ elim [ Open ↦ refl | Close ↦ refl | Semicolon ↦ refl ]
          | Close ↦ elim [ Open ↦ refl | Close ↦ refl | Semicolon ↦ refl ]
          | Semicolon ↦ elim [ Open ↦ refl | Close ↦ refl | Semicolon ↦ refl ]
        ]
      ];
    } };
}

#[test]
fn groups_break_at_their_first_wrong_token(rt: HostRuntime) {
    use Kind::{Close, Open, Semicolon};
    let cases: [(&[Kind], Option<SyntaxError>); 7] = [
        (&[], None),
        (&[Semicolon, Open, Semicolon, Open, Close, Close], None),
        (&[Open, Close, Semicolon], None),
        (&[Close], Some(SyntaxError::Token(0))),
        (
            &[Semicolon, Open, Close, Close, Open],
            Some(SyntaxError::Token(3)),
        ),
        (&[Open], Some(SyntaxError::End)),
        (&[Open, Open, Close, Semicolon], Some(SyntaxError::End)),
    ];
    for (kinds, wanted) in cases {
        let found = first_error::<Groups>(rt.alloc(), Symbol::Items, kinds);
        assert_eq!(rt; found, Ok(wanted), "{kinds:?}");
    }
}
