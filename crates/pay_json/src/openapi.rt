//! The description of both documents.

/// The routes of both documents, with their queries and answers, and the schemas of both, as a text of OpenAPI 3.1.
pub const OPENAPI: &str = r##"{
  "openapi": "3.1.0",
  "info": {
    "title": "farebox: why an account was charged",
    "version": "1",
    "description": "What the pages of customer service say, for programs. Amounts are whole hundredth parts of the currency."
  },
  "paths": {
    "/day.json": {
      "get": {
        "operationId": "day",
        "summary": "Why a service day of an account costs what it costs",
        "description": "The query is account=A&day=D, in this order.",
        "parameters": [{ "$ref": "#/components/parameters/account" }, { "$ref": "#/components/parameters/day" }],
        "responses": {
          "200": {
            "description": "The day.",
            "content": { "application/json": { "schema": { "$ref": "#/components/schemas/Day" } } }
          },
          "400": { "$ref": "#/components/responses/NoQuery" },
          "503": { "$ref": "#/components/responses/NotNow" }
        }
      }
    },
    "/week.json": {
      "get": {
        "operationId": "week",
        "summary": "Why an account's week through a service day costs what it costs, and what is due of it",
        "description": "The query is account=A&day=D, in this order.",
        "parameters": [{ "$ref": "#/components/parameters/account" }, { "$ref": "#/components/parameters/day" }],
        "responses": {
          "200": {
            "description": "The week from its Monday through the day.",
            "content": { "application/json": { "schema": { "$ref": "#/components/schemas/Week" } } }
          },
          "400": { "$ref": "#/components/responses/NoQuery" },
          "503": { "$ref": "#/components/responses/NotNow" }
        }
      }
    }
  },
  "components": {
    "parameters": {
      "account": {
        "name": "account",
        "in": "query",
        "required": true,
        "description": "The number of the account.",
        "schema": { "$ref": "#/components/schemas/AccountNumber" }
      },
      "day": {
        "name": "day",
        "in": "query",
        "required": true,
        "description": "A service day, by its number or its date.",
        "schema": { "oneOf": [{ "$ref": "#/components/schemas/DayNumber" }, { "$ref": "#/components/schemas/Date" }] }
      }
    },
    "responses": {
      "NoQuery": { "description": "The query is not of this form, or names no account or no service day." },
      "NotNow": { "description": "It cannot be told now." }
    },
    "schemas": {
      "AccountNumber": { "type": "integer", "minimum": 1, "maximum": 4294967295 },
      "DayNumber": { "type": "integer", "minimum": 4, "maximum": 50000, "description": "A service day, counted from 1970-01-01." },
      "Date": { "type": "string", "format": "date", "pattern": "^[0-9]{4}-[0-9]{2}-[0-9]{2}$" },
      "Currency": { "type": "string", "pattern": "^[A-Z]{3}$" },
      "Pence": { "type": "integer", "minimum": 0 },
      "Place": {
        "type": "object",
        "description": "A station or a route, with its name where the fare file has one.",
        "required": ["number"],
        "properties": { "number": { "type": "integer", "minimum": 1, "maximum": 65535 }, "name": { "type": "string" } },
        "additionalProperties": false
      },
      "Went": {
        "description": "A run of legs by rail, a leg that ended where it began, a tap in or out that stands alone, or a boarding.",
        "oneOf": [
          {
            "type": "object",
            "required": ["kind", "from", "to", "legs"],
            "properties": {
              "kind": { "const": "Legs" },
              "from": { "$ref": "#/components/schemas/Place" },
              "to": { "$ref": "#/components/schemas/Place" },
              "legs": { "type": "integer", "minimum": 1 }
            },
            "additionalProperties": false
          },
          {
            "type": "object",
            "required": ["kind", "station"],
            "properties": { "kind": { "enum": ["Station", "In", "Out"] }, "station": { "$ref": "#/components/schemas/Place" } },
            "additionalProperties": false
          },
          {
            "type": "object",
            "required": ["kind", "route"],
            "properties": { "kind": { "const": "Bus" }, "route": { "$ref": "#/components/schemas/Place" } },
            "additionalProperties": false
          }
        ]
      },
      "Journey": {
        "type": "object",
        "required": ["number", "fare_pence", "time", "utc", "went", "reason", "sentence"],
        "properties": {
          "number": { "type": "integer", "minimum": 1 },
          "fare_pence": { "$ref": "#/components/schemas/Pence", "description": "What it costs by itself, before any cap." },
          "time": { "type": "string", "pattern": "^[0-2][0-9]:[0-5][0-9]:[0-5][0-9]$", "description": "What the clocks showed at its first tap." },
          "utc": { "type": "integer", "description": "That instant in seconds since 1970-01-01 in UTC." },
          "went": { "$ref": "#/components/schemas/Went" },
          "reason": {
            "description": "Why it costs what it costs: the last four are taps that stand alone, at the maximum fare.",
            "enum": [
              "PaysFirst", "PaysAfter", "FreeAfter", "SingleFare", "FreeAtStation", "SameStation", "NoExit", "LateExit", "NoEntry", "EarlyEntry"
            ]
          },
          "sentence": { "type": "string", "description": "Where it went, and why it costs what it costs, as the page says it." }
        },
        "additionalProperties": false
      },
      "Cover": {
        "oneOf": [
          {
            "type": "object",
            "required": ["kind"],
            "properties": { "kind": { "const": "Buses" } },
            "additionalProperties": false
          },
          {
            "type": "object",
            "required": ["kind", "from", "to"],
            "properties": { "kind": { "const": "Zones" }, "from": { "type": "integer", "minimum": 1 }, "to": { "type": "integer", "minimum": 1 } },
            "additionalProperties": false
          }
        ]
      },
      "Band": {
        "type": "object",
        "description": "The band whose cap gives the price: the cap stands for what is inside, and what is outside comes on top of it.",
        "required": ["cover", "cap_pence", "inside_pence", "outside_pence"],
        "properties": {
          "cover": { "$ref": "#/components/schemas/Cover" },
          "cap_pence": { "$ref": "#/components/schemas/Pence" },
          "inside_pence": { "$ref": "#/components/schemas/Pence" },
          "outside_pence": { "$ref": "#/components/schemas/Pence" }
        },
        "additionalProperties": false
      },
      "Sums": {
        "type": "object",
        "description": "All but maximum fares without a cap, the band that gives the price, if one does, the maximum fares, and the price.",
        "required": ["uncapped_pence", "band", "maximum_fares_pence", "price_pence"],
        "properties": {
          "uncapped_pence": { "$ref": "#/components/schemas/Pence" },
          "band": { "oneOf": [{ "$ref": "#/components/schemas/Band" }, { "type": "null" }] },
          "maximum_fares_pence": { "$ref": "#/components/schemas/Pence" },
          "price_pence": { "$ref": "#/components/schemas/Pence" }
        },
        "additionalProperties": false
      },
      "Correction": {
        "type": "object",
        "required": ["form", "staff", "seq", "effect", "sentence"],
        "properties": {
          "form": { "enum": ["Void", "Fill", "Credit", "Drop"] },
          "staff": { "type": "integer", "minimum": 1, "maximum": 65535 },
          "seq": { "type": "integer", "minimum": 0, "maximum": 4294967295 },
          "effect": { "enum": ["Stands", "DroppedBy", "NamesNothing"] },
          "sentence": { "type": "string", "description": "What it does, as the page says it." }
        },
        "additionalProperties": false
      },
      "Day": {
        "type": "object",
        "required": ["account", "currency", "day", "date", "journeys", "sums", "corrections"],
        "properties": {
          "account": { "$ref": "#/components/schemas/AccountNumber" },
          "currency": { "$ref": "#/components/schemas/Currency" },
          "day": { "$ref": "#/components/schemas/DayNumber" },
          "date": { "$ref": "#/components/schemas/Date" },
          "journeys": { "type": "array", "items": { "$ref": "#/components/schemas/Journey" } },
          "sums": { "$ref": "#/components/schemas/Sums" },
          "corrections": { "type": "array", "items": { "$ref": "#/components/schemas/Correction" } }
        },
        "additionalProperties": false
      },
      "DatedDay": {
        "type": "object",
        "required": ["day", "date"],
        "properties": { "day": { "$ref": "#/components/schemas/DayNumber" }, "date": { "$ref": "#/components/schemas/Date" } },
        "additionalProperties": false
      },
      "PricedDay": {
        "type": "object",
        "required": ["day", "date", "price_pence"],
        "properties": {
          "day": { "$ref": "#/components/schemas/DayNumber" },
          "date": { "$ref": "#/components/schemas/Date" },
          "price_pence": { "$ref": "#/components/schemas/Pence", "description": "With its daily cap, and without its maximum fares." }
        },
        "additionalProperties": false
      },
      "CountedCredit": {
        "type": "object",
        "required": ["staff", "seq", "day", "date", "amount_pence"],
        "properties": {
          "staff": { "type": "integer", "minimum": 1, "maximum": 65535 },
          "seq": { "type": "integer", "minimum": 0, "maximum": 4294967295 },
          "day": { "$ref": "#/components/schemas/DayNumber" },
          "date": { "$ref": "#/components/schemas/Date" },
          "amount_pence": { "$ref": "#/components/schemas/Pence" }
        },
        "additionalProperties": false
      },
      "SignedPence": { "type": "integer", "description": "Below 0 what was given back." },
      "Share": {
        "type": "object",
        "description": "What of a posting fell to an operator, with its name where the fare file has one.",
        "required": ["operator", "amount_pence"],
        "properties": { "operator": { "$ref": "#/components/schemas/Place" }, "amount_pence": { "$ref": "#/components/schemas/SignedPence" } },
        "additionalProperties": false
      },
      "Posting": {
        "type": "object",
        "description": "What was charged or given back, through which day, and what was due of the week by then. Where more taps and corrections were accepted then than now, the ledger is ahead of the journal.",
        "required": ["amount_pence", "through", "due_pence", "accepted_then", "accepted_now", "shares"],
        "properties": {
          "amount_pence": { "$ref": "#/components/schemas/SignedPence" },
          "through": { "$ref": "#/components/schemas/DatedDay" },
          "due_pence": { "$ref": "#/components/schemas/Pence" },
          "accepted_then": { "type": "integer", "minimum": 0, "description": "How many taps and corrections of the account were accepted then." },
          "accepted_now": { "type": "integer", "minimum": 0, "description": "How many are by the journals." },
          "shares": { "type": "array", "items": { "$ref": "#/components/schemas/Share" } }
        },
        "additionalProperties": false
      },
      "Week": {
        "type": "object",
        "required": ["account", "currency", "from", "through", "days", "sums", "credits", "credits_pence", "due_pence"],
        "properties": {
          "account": { "$ref": "#/components/schemas/AccountNumber" },
          "currency": { "$ref": "#/components/schemas/Currency" },
          "from": { "$ref": "#/components/schemas/DatedDay" },
          "through": { "$ref": "#/components/schemas/DatedDay" },
          "days": { "type": "array", "items": { "$ref": "#/components/schemas/PricedDay" }, "minItems": 1, "maxItems": 7 },
          "sums": { "$ref": "#/components/schemas/Sums" },
          "credits": { "type": "array", "items": { "$ref": "#/components/schemas/CountedCredit" } },
          "credits_pence": { "$ref": "#/components/schemas/Pence" },
          "due_pence": { "$ref": "#/components/schemas/Pence" },
          "posted": {
            "description": "What was posted for the account and the week, in order, where pages are shown with a ledger; null where it cannot be read now.",
            "oneOf": [{ "type": "array", "items": { "$ref": "#/components/schemas/Posting" } }, { "type": "null" }]
          }
        },
        "additionalProperties": false
      }
    }
  }
}
"##;
